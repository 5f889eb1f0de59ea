// The fields of a line, each behind a space.
ghost use Rattle.std.specs.Prelude.{◌≡◌, ◌+◌, ◌*◌, ◌≤◌, ◌++◌, length};
ghost use Rattle.std.specs.List.{flat_map};
ghost use Rattle.bounds.specs.Bounds.{times_of};
ghost use Rattle.printing.specs.Fields.{end_field, number_field, time_field, time_fields};
ghost use Rattle.verdicts.specs.Verdicts.{Printable};
ghost use Rattle.verdicts.specs.Windows.{PrintableEnd};
ghost use Rattle.writing.specs.Fronts.{Stays, capacity_of, end_of, written};

use scales::Scale;
use writing::Front;

// A number of 16 bits takes at most five digits.
#[tactic(auto, using(writing::proofs::Staying::stays_then))]
pub(crate) fn push_numbers(text: &mut Front<'_>, numbers: &[u16])
    requires { end_of text.old + 6 * length numbers.now ≤ capacity_of text.old }
    ensures bound { end_of text.new ≤ end_of text.old + 6 * length numbers.now }
    ensures wrote { written text.new ≡ written text.old ++ flat_map number_field numbers.now }
    ensures stays { Stays text.old text.new }
{
    for number in numbers {
        text.push_field(*number);
    }
}

#[tactic(auto, using(writing::proofs::Staying::stays_then))]
fn push_time<S: Scale>(text: &mut Front<'_>, time: S)
    requires size { S.OrderedSums.size (S.OrderedSums.means time) ≤ 1000000000000 }
    requires room { end_of text.old + 33 ≤ capacity_of text.old }
    ensures bound { end_of text.new ≤ end_of text.old + 33 }
    ensures wrote { written text.new ≡ written text.old ++ time_field S.OrderedSums time }
    ensures stays { Stays text.old text.new }
{
    text.push_byte(b' ');
    text.push_text(time.print().as_slice());
}

#[tactic(auto, using(writing::proofs::Staying::stays_then))]
pub(crate) fn push_times<S: Scale>(text: &mut Front<'_>, times: &[S])
    requires printable { Printable S.OrderedSums (length times.now) (times_of S.OrderedSums times.now) }
    requires room { end_of text.old + 33 * length times.now ≤ capacity_of text.old }
    ensures bound { end_of text.new ≤ end_of text.old + 33 * length times.now }
    ensures wrote { written text.new ≡ written text.old ++ time_fields S.OrderedSums times.now }
    ensures stays { Stays text.old text.new }
{
    for time in times {
        push_time(text, *time);
    }
}

// An end of a window, or the word none.
#[tactic(auto, using(writing::proofs::Staying::stays_then))]
pub(crate) fn push_end<S: Scale>(text: &mut Front<'_>, end: Option<S>)
    requires printable { PrintableEnd S.OrderedSums end }
    requires room { end_of text.old + 33 ≤ capacity_of text.old }
    ensures bound { end_of text.new ≤ end_of text.old + 33 }
    ensures wrote { written text.new ≡ written text.old ++ end_field S.OrderedSums end }
    ensures stays { Stays text.old text.new }
{
    match end {
        None => text.push_text(b" none"),
        Some(time) => push_time(text, time),
    }
}
