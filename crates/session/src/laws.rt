ghost use Rattle.std.specs.Prelude.{◌≡◌, true};
ghost use Rattle.session.specs.Readings.{OneReading};
ghost use Rattle.session.specs.Runs.{ReadersGive};

// Whichever bytes a session holds, it has exactly one reading, and a run of the readers gives it. The value is always true.
pub fn one_reading() -> bool
    ensures one { OneReading }
    ensures given { ReadersGive }
    ensures value { result ≡ true }
{
    true
}
