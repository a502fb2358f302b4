//! Assertions as calls: each is proved once here, where the macro is proved anew at each place.
use std::fmt::Debug;
use std::process::Abort;

/// Fails where what is answered is not what is wanted.
pub(crate) fn same<T: PartialEq + Debug + Drop>(rt: &impl Abort, got: T, wanted: T) {
    assert_eq!(rt; got, wanted);
}

/// Fails, and tells at which row, where what is answered is not what is wanted.
pub(crate) fn same_at<T, A>(rt: &impl Abort, got: T, wanted: T, at: A)
where
    T: PartialEq + Debug + Drop,
    A: Debug + Drop,
{
    assert_eq!(rt; got, wanted, "at {at:?}");
}

/// Fails, and tells at which row, where it is not so.
pub(crate) fn must_at<A: Debug + Drop>(rt: &impl Abort, is: bool, at: A) {
    assert!(rt; is, "at {at:?}");
}
