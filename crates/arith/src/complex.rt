// A complex number by its two parts.
use std::ops::Neg;

#[derive(Clone, Copy)]
pub struct Complex<T> {
    pub re: T,
    pub im: T,
}

// Both parts with the other sign.
impl<T: Neg<Output = T>> Neg for Complex<T> {
    type Output = Complex<T>;

    ghost can_neg = { λ z. T.can_neg z.re × T.can_neg z.im };

    ghost neg_gives = { λ z r. T.neg_gives z.re r.re × T.neg_gives z.im r.im };

    fn neg(self) -> Complex<T> {
        Complex {
            re: -self.re,
            im: -self.im,
        }
    }
}
