// How many binary digits are kept.
ghost use Rattle.std.specs.Prelude.{◌<◌, ◌≤◌};

// From 1 to 24 binary digits, which is what the widest format has.
#[derive(Clone, Copy)]
pub struct Precision {
    pub bits: u32,
    ghost some: { 0 < bits },
    ghost few: { bits ≤ 24 },
}
