// The bank and its calls.
ghost use Rattle.std.specs.Prelude.{◌≡◌, ℕ, ◌<◌, true, false, nat_lt, MatchResult, length, is_err, Ok, OnOk, ◌≢◌, slice_index_or, slice_set};
ghost use Rattle.arith.specs.Pattern.{plain_zero};
ghost use Rattle.bank.specs.Slots.{empty, fresh};
ghost use Rattle.bank.specs.Calls.{loaded, told, written, shown, patterns};
ghost use Rattle.bank.specs.Views.{holds, slot};
ghost use Rattle.bank.specs.declared.fault.Fault.TheVariants.{NoSuchPlace};

use crate::fault::Fault;
use crate::place::{Depth, Held};
use arith::{Complex, NamedFormat, Number};

// The patterns of a number and its depth.
#[derive(Clone, Copy, Debug, PartialEq, Eq)]
pub struct Shown {
    pub re: u32,
    pub im: u32,
    pub depth: u16,
}

// Sixteen places for numbers of the format F.
#[derive(Drop)]
pub struct Bank<F: NamedFormat> {
    places: [Option<Held<F>>; 16],
}

// Whether there is such a place.
fn check_place(place: u8) -> Result<(), Fault>
    ensures { MatchResult result (λ _. nat_lt 15 place ≡ false) (λ e. (nat_lt 15 place ≡ true) × (e ≡ NoSuchPlace)) }
{
    if place > 15 {
        return Err(Fault::NoSuchPlace);
    }
    Ok(())
}

impl<F: NamedFormat> Bank<F> {
    // A bank whose places are all empty.
    pub fn new() -> Bank<F>
        ensures { holds result ≡ fresh }
    {
        Bank { places: [None; 16] }
    }

    // Puts what is to be held into a place.
    fn put(&mut self, place: u8, held: Held<F>)
        requires { place < 16 }
        ensures places { holds self.new ≡ slice_set (holds self.old) place (slot (Some held)) }
        ensures there { place < length (holds self.old) }
    {
        self.places[place as usize] = Some(held);
    }

    // What a place holds, if it is filled.
    fn at(&self, place: u8) -> Option<Held<F>>
        requires { place < 16 }
        ensures { slot result ≡ slice_index_or (holds self.now) place empty }
    {
        self.places[place as usize]
    }

    // Reads two patterns, the real one wholly before the imaginary, and puts their number into a place with depth 0.
    fn fill(&mut self, place: u8, re: u32, im: u32) -> Result<(), Fault>
        ensures answer { result ≡ told (loaded F.format place re im) }
        ensures places { holds self.new ≡ written (holds self.old) place (loaded F.format place re im) }
        ensures there { OnOk result (place < length (holds self.old)) }
    {
        check_place(place)?;
        let re = Number::from_pattern(re)?;
        let im = Number::from_pattern(im)?;
        let number = Complex { re, im };
        let depth = Depth { count: 0 };
        self.put(place, Held { number, depth });
        Ok(())
    }

    // Puts the number of two patterns into a place with depth 0. They are two patterns and no complex number, since each has its own refusal,
    // and they make a number only where both can be read.
    pub fn load(&mut self, place: u8, re: u32, im: u32) -> Result<(), Fault>
        ensures answer { result ≡ told (loaded F.format place re im) }
        ensures places { holds self.new ≡ written (holds self.old) place (loaded F.format place re im) }
        ensures refused_changes_nothing { is_err result ≡ true → holds self.new ≡ holds self.old }
        ensures others_unchanged { (k : ℕ) → (k ≢ place) → slice_index_or (holds self.new) k empty ≡ slice_index_or (holds self.old) k empty }
        ensures shown_again { OnOk result (shown F.format (holds self.new) place ≡ Ok (patterns (plain_zero F.format re) (plain_zero F.format im) 0)) }
    {
        self.fill(place, re, im)
    }

    // The two patterns and the depth of a place.
    pub fn show(&self, place: u8) -> Result<Shown, Fault>
        ensures { result ≡ shown F.format (holds self.now) place }
    {
        check_place(place)?;
        let held = self.at(place).ok_or(Fault::EmptyPlace)?;
        Ok(Shown {
            re: held.number.re.pattern(),
            im: held.number.im.pattern(),
            depth: held.depth.count,
        })
    }
}
