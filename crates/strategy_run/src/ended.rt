//! How runs end.

/// How a run ends.
#[derive(Clone, Copy, Debug, PartialEq, Eq, Drop)]
pub enum Ended<R> {
    /// It succeeded, with this.
    Done(R),
    /// It failed.
    Failed,
    /// No step was left.
    Spent,
    /// A term didn't fit.
    Big,
}

/// Goes on with the result of a run that succeeded; any other end is returned.
macro_rules! when_done {
    ($ended:expr, $done:pat => $then:expr) => {
        match $ended {
            Ended::Done($done) => Ok(Ended::Done($then)),
            Ended::Failed => Ok(Ended::Failed),
            Ended::Spent => Ok(Ended::Spent),
            Ended::Big => Ok(Ended::Big),
        }
    };
}

pub(crate) use when_done;
