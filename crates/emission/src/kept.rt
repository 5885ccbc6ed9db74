// A train that keeps its lines: whoever holds one need not be told so again.
ghost use Rattle.std.specs.Prelude.{◌≡◌, Ok};
ghost use Rattle.figures.specs.Rules.{train_check};

use figures::Train;

#[derive(Clone, Copy)]
pub(crate) struct Kept {
    pub(crate) train: Train,
    ghost kept: { train_check train ≡ Ok tt },
}
