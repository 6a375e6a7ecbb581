// What holds of each text.

ghost use Rattle.mz_print.specs.Output.{FaultsComeFirst, IsFreeOfChoices};

/// A fault in an output item comes before an undefined element in an earlier one.
pub fn faults_come_first()
    ensures { FaultsComeFirst }
{}

/// Whatever values the free locals of output items take, the text and its work are the same.
pub fn free_of_choices()
    ensures { IsFreeOfChoices }
{}
