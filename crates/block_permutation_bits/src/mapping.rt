// The mapping of a block's outputs to its inputs, as the programming takes it.
ghost use Rattle.block_loops.specs.Mappings.{IsPerm};

// The input that each output takes, both counted from 0, where no two outputs take one input.
#[derive(Clone, Copy)]
pub(crate) struct Mapping<'a> {
    pub(crate) inputs: &'a [u16],
    ghost one_to_one: { IsPerm inputs.now },
}
