// A setting by value: kernel, centre, shears and border. Each change hands back a new setting with the others kept, and tests nothing: values
// are tested where the setting is used.
#![tactic(auto)]

ghost use Rattle.std.specs.Prelude.{◌≡◌};
ghost use Rattle.settings.specs.Setting.{with_kernel, with_centre, with_shears, with_border};

// What lies beyond a line's ends: the line again, or background of one sample value.
#[derive(Clone, Copy)]
pub enum Border {
    Wrapped,
    Background(i32),
}

// The kernel is 0 linear, 1 Keys or 2 cubic spline. The centre is the column cx and the row cy. The shears a and b are document 01's A and B,
// in 4,096ths.
#[derive(Clone, Copy)]
pub struct Setting {
    pub kernel: u32,
    pub cx: usize,
    pub cy: usize,
    pub a: i32,
    pub b: i32,
    pub border: Border,
}

impl Setting {
    // Another kernel.
    pub fn with_kernel(self, kernel: u32) -> Setting
        ensures { result ≡ with_kernel self kernel }
    {
        Setting { kernel, ..self }
    }

    // Another centre: column cx, row cy.
    pub fn with_centre(self, cx: usize, cy: usize) -> Setting
        ensures { result ≡ with_centre self cx cy }
    {
        Setting { cx, cy, ..self }
    }

    // Other shears, in 4,096ths.
    pub fn with_shears(self, a: i32, b: i32) -> Setting
        ensures { result ≡ with_shears self a b }
    {
        Setting { a, b, ..self }
    }

    // Another border.
    pub fn with_border(self, border: Border) -> Setting
        ensures { result ≡ with_border self border }
    {
        Setting { border, ..self }
    }
}
