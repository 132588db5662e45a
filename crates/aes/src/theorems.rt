// What is proved of the definitions, apart from any code: each is the contract of a function that does nothing.
ghost use Rattle.aes.specs.Field.{InverseIsOne};
ghost use Rattle.aes.specs.SBox.{BoxesUndo};
ghost use Rattle.aes.specs.Cipher.{StepsUndo, RoundsUndo};
ghost use Rattle.aes.specs.Examples.{Published};

// The inverse in the field is one: a byte but 0, times its inverse, is 1.
pub fn inverse_is_one()
    ensures { InverseIsOne }
{}

// The two S-boxes undo each other.
pub fn boxes_undo()
    ensures { BoxesUndo }
{}

// ShiftRows, MixColumns and AddRoundKey are undone at every state.
pub fn steps_undo()
    ensures { StepsUndo }
{}

// The cipher and the inverse cipher undo each other, over any round keys.
pub fn rounds_undo()
    ensures { RoundsUndo }
{}

// The definitions give the standard's own examples, at all three lengths of key.
pub fn published_examples()
    ensures { Published }
{}
