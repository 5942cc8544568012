// The laws of the texts and of the form.
ghost use Rattle.semantics.specs.TextLaws.{WrittenIsRead, ReadWasWritten};
ghost use Rattle.semantics.specs.FormLaws.{FormExact, FormFirst};

// A method has one text, and a text says one method.
pub fn text_laws()
    ensures { WrittenIsRead × ReadWasWritten }
{}

// A method is well formed exactly when the form rules find no fault; the fault they tell is the first.
pub fn form_laws()
    ensures { FormExact × FormFirst }
{}
