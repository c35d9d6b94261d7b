// Document 01's numbers for a refusal.
ghost use Rattle.judge.specs.Judge.{refusal};
ghost use Rattle.std.specs.Prelude.{◌≡◌};

use crate::Judgement;
use sheet::ReadError;
use table::Fault;

// A refusal: no steps.
pub fn refusal(answer: usize, value: usize) -> Judgement
    ensures { result ≡ refusal answer value }
{
    Judgement {
        answer,
        value,
        steps: 0,
    }
}

// A table's fault handed out as a judgement.
#[tactic(auto, unfolding(table::specs::Check::numbers))]
impl From<Fault> for Judgement {
    ghost use Rattle.std.specs.Prelude.{Err};
    ghost use Rattle.judge.specs.Judge.{handed};

    ghost from_gives = { λ fault j. j ≡ handed (Err fault) };

    fn from(fault: Fault) -> Judgement {
        match fault {
            Fault::TooLong => refusal(10, 0),
            Fault::Unfit(line) => refusal(12, line),
            Fault::NotReduced(symbol) => refusal(20, symbol),
            Fault::Ring(symbol) => refusal(21, symbol),
            Fault::Broken(_, _) => refusal(22, 0),
        }
    }
}

// The check's answer handed out as a judgement: of a table that passes the count of its states.
#[tactic(auto, unfolding(table::specs::Check::numbers))]
impl From<Result<usize, Fault>> for Judgement {
    ghost use Rattle.judge.specs.Judge.{handed};

    ghost from_gives = { λ check j. j ≡ handed check };

    fn from(check: Result<usize, Fault>) -> Judgement {
        match check {
            Ok(states) => refusal(0, states),
            Err(fault) => Judgement::from(fault),
        }
    }
}

// A sheet's refusal by the reader handed out as a judgement.
#[tactic(auto, unfolding(sheet::specs::Reads::answer_of))]
impl From<ReadError> for Judgement {
    ghost use Rattle.std.specs.Prelude.{Err};
    ghost use Rattle.judge.specs.Judge.{handed_read};

    ghost from_gives = { λ error j. j ≡ handed_read (Err error) };

    fn from(error: ReadError) -> Judgement {
        match error {
            ReadError::TooLong => refusal(10, 0),
            ReadError::Form(line) => refusal(11, line),
            ReadError::Range(line) => refusal(12, line),
            ReadError::Short(needed) => refusal(13, needed),
        }
    }
}
