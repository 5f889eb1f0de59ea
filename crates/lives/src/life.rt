ghost use Rattle.std.specs.Prelude.{◌≡◌, ◌≤◌, List, [], ◌∷◌, ◌++◌, map, true, MatchResult};
ghost use Rattle.engine.specs.Books.{devices_of, records_of, sheet_of};
ghost use Rattle.engine.specs.declared.refusal.Refusal.TheVariants.{Devices};
ghost use Rattle.engine.specs.Checks.{Granted, Refused, begin_checks};
ghost use Rattle.lives.specs.Changes.{AllSameLengths, Changes, SameLengths};
ghost use Rattle.lives.specs.Determined.{OneLife};
ghost use Rattle.lives.specs.Lives.{Lawful, Lived, LivedOn, ShowsAll};
ghost use Rattle.lives.specs.Standing.{Made, made};

use crate::steps::{Reply, Step};
use engine::{Book, Refusal};
use lines::Call;
use scales::Scale;

// Makes the call of a step, and keeps its answer in the step. The call is data that a session was read as, and so an enum and no closure.
pub fn perform<S: Scale>(book: &mut Book<S>, step: &mut Step<S>)
    ensures devices { devices_of book.new ≡ devices_of book.old }
    ensures records { Changes (devices_of book.old) (records_of book.old) (made step.new) (records_of book.new) }
    ensures lengths { SameLengths step.old step.new }
    ensures lawful { Lawful S.OrderedSums (devices_of book.old) (sheet_of book.old) step.old step.new }
    ensures stands { (past : List (Made S)) → ShowsAll (sheet_of book.old) past → ShowsAll (sheet_of book.new) (past ++ made step.new ∷ []) }
{
    match step.call {
        Call::Enter(number, asked) => {
            let answer = book.enter(number, asked);
            step.reply = Some(Reply::Entered(answer));
        }
        Call::Strike(number) => {
            let answer = book.strike(number);
            step.reply = Some(Reply::Struck(answer));
        }
        Call::Settle => {
            let answer = book.settle(
                step.times.as_mut_slice(),
                step.names.as_mut_slice(),
                step.work.as_mut_slice(),
            );
            step.reply = Some(Reply::Settled(answer));
        }
        Call::Window(device) => {
            let answer = book.window(device, step.work.as_mut_slice());
            step.reply = Some(Reply::Windowed(answer));
        }
        Call::Follows(asked) => {
            let answer = book.follows(asked, step.times.as_mut_slice(), step.work.as_mut_slice());
            step.reply = Some(Reply::Followed(answer));
        }
    }
}

// Goes on with the life of a book: every call of the list is made in turn, whatever calls came before.
pub fn go_on<S: Scale>(book: &mut Book<S>, steps: &mut [Step<S>])
    ensures devices { devices_of book.new ≡ devices_of book.old }
    ensures lengths { AllSameLengths steps.old steps.new }
    ensures lived { (past : List (Made S)) → ShowsAll (sheet_of book.old) past → LivedOn S.OrderedSums (devices_of book.old) past steps.old steps.new }
    ensures stands { (past : List (Made S)) → ShowsAll (sheet_of book.old) past → ShowsAll (sheet_of book.new) (past ++ map made steps.new) }
{
    for step in steps.iter_mut() {
        perform(book, step);
    }
}

// The life of a book: it begins with so many devices and no line, and every call of the list is made in turn.
pub fn live<S: Scale>(devices: u8, steps: &mut [Step<S>]) -> Result<Book<S>, Refusal>
    ensures lived { MatchResult result (λ b. (devices_of b ≡ devices) × Lived S.OrderedSums devices steps.old steps.new × ShowsAll (sheet_of b) (map made steps.new)) (λ e. (e ≡ Devices) × ((1 ≤ devices) → (devices ≤ 200) → ⊥) × (steps.new ≡ steps.old)) }
    ensures checks { MatchResult result (λ _. Granted (begin_checks devices)) (Refused (begin_checks devices)) }
    ensures lengths { AllSameLengths steps.old steps.new }
{
    let mut book = Book::begin(devices)?;
    go_on(&mut book, steps);
    Ok(book)
}

// The rules of lives leave no choice but that of a clash set. The value is always true.
pub fn one_life<S: Scale>() -> bool
    ensures one { OneLife S.OrderedSums }
    ensures value { result ≡ true }
{
    true
}
