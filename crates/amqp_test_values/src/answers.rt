//! Comparing what was found with what was wanted. Neither is taken apart: a test's process gives all
//! its memory back at its end.

ghost use Rattle.std.specs.Prelude.{◌≡◌, is_ok};
ghost use Rattle.std.specs.Result.{result_err, result_ok};
ghost use Rattle.amqp_test_values.specs.Answers.{gives_err, gives_ok};

use std::mem::ManuallyDrop;

/// Lets a value go as it is, as `std::mem::forget` does. It asks for no bound, so that no test
/// proves once more how the value is dropped, and is for values that may be dropped alone.
pub fn leak<T>(value: T) {
    let _leaked = unsafe { ManuallyDrop::new_unchecked(value) };
}

/// Whether the two are equal.
pub fn same<T: PartialEq>(found: T, wanted: T) -> bool
    ensures { result ≡ T.eq found wanted }
{
    let equal = found == wanted;
    leak(found);
    leak(wanted);
    equal
}

/// Whether the answer is this Ok.
pub fn gives<T: PartialEq, E>(answer: Result<T, E>, wanted: T) -> bool
    ensures { result ≡ gives_ok T.eq answer wanted }
{
    match answer {
        Ok(found) => same(found, wanted),
        Err(error) => {
            leak(error);
            leak(wanted);
            false
        }
    }
}

/// Whether the answer is this Err.
pub fn refuses<T, E: PartialEq>(answer: Result<T, E>, wanted: E) -> bool
    ensures { result ≡ gives_err E.eq answer wanted }
{
    match answer {
        Ok(value) => {
            leak(value);
            leak(wanted);
            false
        }
        Err(found) => same(found, wanted),
    }
}

/// Whether the answer is an Ok.
pub fn is_done<T, E>(answer: Result<T, E>) -> bool
    ensures { result ≡ is_ok answer }
{
    match answer {
        Ok(value) => {
            leak(value);
            true
        }
        Err(error) => {
            leak(error);
            false
        }
    }
}

/// The value of an Ok.
pub fn value_of<T, E>(answer: Result<T, E>) -> Option<T>
    ensures { result ≡ result_ok answer }
{
    match answer {
        Ok(value) => Some(value),
        Err(error) => {
            leak(error);
            None
        }
    }
}

/// The error of an Err.
pub fn error_of<T, E>(answer: Result<T, E>) -> Option<E>
    ensures { result ≡ result_err answer }
{
    match answer {
        Ok(value) => {
            leak(value);
            None
        }
        Err(error) => Some(error),
    }
}
