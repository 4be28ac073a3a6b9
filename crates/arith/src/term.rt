// The terms of a step's sum, and their exact values as addends.
ghost use Rattle.std.specs.Prelude.{◌≡◌};
ghost use Rattle.rounding.specs.Values.{exact_value};
ghost use Rattle.arith.specs.Number.{value_of};
ghost use Rattle.arith.specs.Term.{scaled_term, scaled_product};
ghost use Rattle.arith.specs.declared.term.Term.TheVariants.{Number};

use crate::format::NamedFormat;
use crate::number::Number;
use rounding::Addend;

// What a step adds or subtracts: a number, or the exact product of two.
#[derive(Clone, Copy)]
pub enum Term<F: NamedFormat> {
    Number(Number<F>),
    Product(Number<F>, Number<F>),
}

impl<F: NamedFormat> From<Number<F>> for Term<F> {
    ghost from_gives = { λ x t. t ≡ Number x };

    fn from(x: Number<F>) -> Term<F> {
        Term::Number(x)
    }
}

// A number as an addend, and the exact product of two: the arms of the conversion below, each with its own promise.
fn single<F: NamedFormat>(x: Number<F>) -> Addend
    ensures { exact_value result ≡ value_of x }
{
    Addend {
        whole: x.signed(),
        exponent: x.last_exponent(),
    }
}

fn product<F: NamedFormat>(x: Number<F>, y: Number<F>) -> Addend
    ensures { exact_value result ≡ scaled_product x y }
{
    Addend {
        whole: x.signed() * y.signed(),
        exponent: x.last_exponent() + y.last_exponent(),
    }
}

// The exact value of a term, as what an exact sum is made of.
impl<F: NamedFormat> From<Term<F>> for Addend {
    ghost from_gives = { λ t x. exact_value x ≡ scaled_term t };

    fn from(term: Term<F>) -> Addend {
        match term {
            Term::Number(x) => single(x),
            Term::Product(x, y) => product(x, y),
        }
    }
}
