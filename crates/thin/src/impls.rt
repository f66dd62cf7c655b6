// Copies, comparisons and the printed form of a `Thin`: those of an `Option`.

ghost use Rattle.std.specs.Option.{option_eq};
ghost use Rattle.std.specs.Fmt.{debug_option};
ghost use Rattle.std.proofs.Common.{rules};
ghost use Rattle.thin.specs.Values.{BothCopied};

use crate::Thin;
use std::alloc::AllocError;
use std::fmt;

impl<T: Clone> Clone for Thin<T> {
    ghost is_clone = { BothCopied T.is_clone };

    fn clone(&self) -> Result<Thin<T>, AllocError> {
        let alloc = self.allocator();
        match self.as_ref() {
            None => Ok(Thin::none(alloc)),
            Some(value) => Ok(Thin::some(alloc, value.clone()?)?),
        }
    }
}

impl<T: PartialEq> PartialEq for Thin<T> {
    ghost eq = { option_eq T.eq };

    ghost laws = { Prim.search rules };

    fn eq(&self, other: &Self) -> bool {
        match (self.as_ref(), other.as_ref()) {
            (None, None) => true,
            (Some(mine), Some(theirs)) => *mine == *theirs,
            _ => false,
        }
    }
}

impl<T: Eq> Eq for Thin<T> {
    ghost laws = { Prim.search rules };
}

impl<T: fmt::Debug> fmt::Debug for Thin<T> {
    ghost debug_output = { debug_option T.debug_output };

    fn fmt<W: fmt::Write>(&self, f: &mut fmt::Formatter<W>) -> fmt::Result {
        fmt::Debug::fmt(&self.as_ref(), f)
    }
}
