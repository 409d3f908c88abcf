//! The grammar that lets every element stand.
use crate::grammar::{Grammar, Step};
use crate::tag::Tag;

/// The grammar that lets every element stand (this product's own).
#[derive(Clone, Copy, Debug)]
pub struct Anything;

impl Grammar for Anything {
    ghost use Rattle.ber.specs.Anything.{anything};

    ghost rules = { anything };

    fn enter(&self, _tag: &Tag) -> Step<Anything> {
        Step::Into {
            outer: *self,
            inner: *self,
        }
    }

    fn takes(&self, _contents: &[u8]) -> bool {
        true
    }

    fn is_whole(&self) -> bool {
        true
    }
}
