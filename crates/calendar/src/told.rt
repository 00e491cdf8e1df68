// What C is told of a result: the answer, or the number of the cause and zeros.
use crate::{Quarter, QuarterAnswer, WindowAnswer};
use base::Refusal;

impl From<Result<(u64, u64), Refusal>> for WindowAnswer {
    ghost use Rattle.std.specs.Prelude.{◌≡◌};
    ghost use Rattle.calendar.specs.laws.Told.{window_told};

    ghost from_gives = { λ edges answer. answer ≡ window_told edges };

    fn from(edges: Result<(u64, u64), Refusal>) -> WindowAnswer {
        match edges {
            Ok((left, right)) => WindowAnswer {
                number: 0,
                left,
                right,
            },
            Err(cause) => WindowAnswer {
                number: cause.number(),
                left: 0,
                right: 0,
            },
        }
    }
}

impl From<Result<Quarter, Refusal>> for QuarterAnswer {
    ghost use Rattle.std.specs.Prelude.{◌≡◌};
    ghost use Rattle.calendar.specs.laws.Told.{quarter_told};

    ghost from_gives = { λ at answer. answer ≡ quarter_told at };

    fn from(at: Result<Quarter, Refusal>) -> QuarterAnswer {
        match at {
            Ok(at) => QuarterAnswer { number: 0, at },
            Err(cause) => QuarterAnswer {
                number: cause.number(),
                at: Quarter::default(),
            },
        }
    }
}
