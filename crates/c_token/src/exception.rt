/// The exception types that scripts and the written C name.
#[derive(Clone, Copy, Debug, PartialEq, Eq)]
pub enum Exception {
    BaseException,
    TypeError,
    NotImplementedError,
    OverflowError,
    ZeroDivisionError,
    ValueError,
    IndexError,
    AttributeError,
    SystemError,
    NameError,
    UnboundLocalError,
}
