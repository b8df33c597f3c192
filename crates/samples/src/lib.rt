// Samples of the definitions, proved as one list, and tests of what no line of `replay` can say.
#![tactic(auto)]

ghost use Rattle.std.specs.Prelude.{◌≡◌, length};
ghost use Rattle.samples.specs.Samples.{samples, SamplesHold};

/// The number of samples, each of which is as expected.
pub fn sample_count() -> usize
    ensures value { result ≡ length samples }
    ensures hold { SamplesHold }
{
    23
}

#[cfg(test)]
mod codes;
#[cfg(test)]
mod indices;
#[cfg(test)]
mod limits;
#[cfg(test)]
mod plays;
#[cfg(test)]
mod refused;
#[cfg(test)]
mod rooms;
