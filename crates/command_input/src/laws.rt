// What is true of inputs, each law the contract of a function that does nothing.
ghost use Rattle.command_input.specs.Input.{EveryTextIsAnInput, InputsAgree};

/// All bytes are an input, whatever is wanted.
pub fn every_text_is_an_input()
    ensures { EveryTextIsAnInput }
{}

/// Bytes are one input.
pub fn inputs_agree()
    ensures { InputsAgree }
{}
