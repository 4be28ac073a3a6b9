// The formats, each by a name of its own, which is a type.
ghost use Rattle.std.specs.Prelude.{◌≡◌};

use rounding::Precision;

// A format: how many binary digits its significands have, its largest exponent, and the bits of a pattern.
#[derive(Clone, Copy)]
pub struct Format {
    pub precision: u32,
    pub emax: u32,
    pub width: u32,
}

impl Format {
    ghost use Rattle.arith.specs.Format.{format_of, Usable};

    // The format of a code: 1 is binary16, 2 is bfloat16; any other code stands for binary32, whose own code is 3. Each name below means the
    // format of its code.
    pub fn of_code(code: u8) -> Format
        ensures defined { result ≡ format_of code }
        ensures usable { Usable result }
        ensures names { (⟦<Binary16 as NamedFormat>⟧.format ≡ format_of 1) × (⟦<Bfloat16 as NamedFormat>⟧.format ≡ format_of 2) × (⟦<Binary32 as NamedFormat>⟧.format ≡ format_of 3) }
    {
        match code {
            1 => Binary16::format(),
            2 => Bfloat16::format(),
            _ => Binary32::format(),
        }
    }
}

// A format by its name. Its meaning is the format; owed is that the format is usable: that its numbers fit each other and the integers that
// hold them, that zero is in range, and that patterns are whole bytes.
pub trait NamedFormat: Copy {
    ghost use Rattle.arith.specs.Format.{Usable};
    ghost use Rattle.arith.specs.declared.format.Format.{Format};

    ghost format: { Format };

    fn format() -> Format
        ensures { result ≡ format };

    ghost usable: { Usable format };
}

// The precision of a format, as a rounding rule takes it.
pub fn precision<F: NamedFormat>() -> Precision
    ensures { result.bits ≡ F.format.precision }
{
    Precision {
        bits: F::format().precision,
    }
}

#[derive(Clone, Copy)]
pub struct Binary16;

impl NamedFormat for Binary16 {
    ghost use Rattle.arith.specs.Format.{binary16, usable_binary16};

    ghost format = { binary16 };

    ghost usable = { usable_binary16 };

    fn format() -> Format {
        Format {
            precision: 11,
            emax: 15,
            width: 16,
        }
    }
}

#[derive(Clone, Copy)]
pub struct Bfloat16;

impl NamedFormat for Bfloat16 {
    ghost use Rattle.arith.specs.Format.{bfloat16, usable_bfloat16};

    ghost format = { bfloat16 };

    ghost usable = { usable_bfloat16 };

    fn format() -> Format {
        Format {
            precision: 8,
            emax: 127,
            width: 16,
        }
    }
}

#[derive(Clone, Copy)]
pub struct Binary32;

impl NamedFormat for Binary32 {
    ghost use Rattle.arith.specs.Format.{binary32, usable_binary32};

    ghost format = { binary32 };

    ghost usable = { usable_binary32 };

    fn format() -> Format {
        Format {
            precision: 24,
            emax: 127,
            width: 32,
        }
    }
}
