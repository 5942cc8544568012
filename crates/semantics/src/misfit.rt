// Why an operation cannot be carried out on what its operands are.
#[derive(Clone, Copy)]
pub enum Misfit {
    // No method of that name is found.
    NoRow,
    // A wrong count of arguments, or an argument of a wrong class.
    Argument { operand: usize },
    ResultClass,
    // What a jump goes by is no Bool or no Int.
    Condition,
    // The row does not fit the row of a label.
    Row { operand: usize },
}
