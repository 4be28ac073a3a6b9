// Which format a value is of.
use std::marker::PhantomData;

// A name for the compiler, and no part of the value.
#[derive(Clone, Copy)]
pub struct OfFormat<F>(pub(crate) PhantomData<F>);

// It holds nothing of F, so a number is Send and Sync in every format. These marks tell the compiler that it need not ask so of F. Nothing is
// assumed by them, since each call that sends or shares a value is proved; where code over F starts a thread, that takes a bound F: Send.
unsafe impl<F> Send for OfFormat<F> {}

unsafe impl<F> Sync for OfFormat<F> {}
