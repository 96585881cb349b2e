// The spline's coefficients, computed and exact: definitions in specs/ and laws in proofs/. `prefilter` has the code that computes them.
#![tactic(auto)]
