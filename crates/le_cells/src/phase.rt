use le_proofs::Next;

// What a machine's calls of `next` answered.
#[derive(Clone, Copy, Debug)]
pub(crate) enum Phase {
    // There was none.
    Fresh,
    // The last one answered this.
    Told(Next),
    // One of them ran out of memory.
    Lost,
}
