use engine::{Followed, Refusal, Settled};
use lines::Call;
use scales::Scale;

// What a call answered.
#[derive(Clone, Copy)]
pub enum Reply<S> {
    Entered(Result<(), Refusal>),
    Struck(Result<(), Refusal>),
    Settled(Result<Settled, Refusal>),
    Windowed(Result<(Option<S>, Option<S>), Refusal>),
    Followed(Result<Followed, Refusal>),
}

// A call to be made, with the buffers that it is lent, and its answer once it is made.
#[derive(Drop)]
pub struct Step<S: Scale> {
    pub call: Call,
    pub times: Vec<S>,
    pub names: Vec<u16>,
    pub work: Vec<S>,
    pub reply: Option<Reply<S>>,
}
