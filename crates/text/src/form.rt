// The form rules: label points, what operations name, and how code ends.
ghost use Rattle.std.specs.Prelude.{◌≡◌, ◌+◌, ◌^◌, ◌<◌, ◌≤◌, cond, not, ◌||◌, map, length, IfErr, Ok};
ghost use Rattle.semantics.specs.Form.{must, labels_rise, Named, named_by, named_as, target, present, operands, all_present, code_names, leaves, labelled, code_ends, form_of};
ghost use Rattle.semantics.specs.FormLaws.{WellFormed, FirstFault};
ghost use Rattle.semantics.specs.declared.refusal.Refusal.TheVariants.{Absent};
ghost use Rattle.semantics.specs.Methods.{op_of, label_of, method_of};
ghost use Rattle.text.specs.Scopes.{scope_from};

use semantics::demand::demand;
use semantics::method::{Label, Method};
use semantics::operation::{Destination, Operand, Operation};
use semantics::refusal::Refusal;

// Label points rise strictly and lie in the method.
fn labels_rise(labels: &[Label], points: usize) -> Result<(), Refusal>
    ensures { result ≡ labels_rise points 0 0 (map label_of labels.now) }
{
    let mut low = 0;
    for (i, label) in labels.iter().enumerate() {
        let point = usize::from(label.point);
        if point < low || points <= point {
            return Err(Refusal::LabelPoint { label: i });
        }
        low = point + 1;
    }
    Ok(())
}

// How many locals, temporaries and labels a method has.
#[derive(Clone, Copy)]
pub struct Scope {
    locals: usize,
    temporaries: usize,
    labels: usize,
}

// What an operand may name.
trait Name: Copy {
    ghost named: { Self → Named };

    fn is_in(self, scope: &Scope) -> bool
        ensures { result ≡ present (scope_from scope.now) (named self) };
}

// Two arms stand twice, as the enums have them: one enum would let a constant be a destination, and one in the other would nest each match.
impl Name for Operand {
    ghost named = { named_by };

    fn is_in(self, scope: &Scope) -> bool {
        match self {
            Operand::Local(n) => usize::from(n) < scope.locals,
            Operand::Temporary(n) => usize::from(n) < scope.temporaries,
            Operand::Constant(_) => true,
        }
    }
}

impl Name for Destination {
    ghost named = { named_as };

    fn is_in(self, scope: &Scope) -> bool {
        match self {
            Destination::Local(n) => usize::from(n) < scope.locals,
            Destination::Temporary(n) => usize::from(n) < scope.temporaries,
        }
    }
}

// A label.
impl Name for u8 {
    ghost named = { target };

    fn is_in(self, scope: &Scope) -> bool {
        usize::from(self) < scope.labels
    }
}

impl Scope {
    // That the method has what an operand names.
    fn has<T: Name>(&self, point: usize, operand: usize, name: T) -> Result<(), Refusal>
        ensures { result ≡ must (present (scope_from self.now) (T.named name)) (Absent point operand) }
    {
        demand(name.is_in(self), Refusal::Absent { point, operand })
    }

    // The same of the operands from `first` on. The place of an absent one is told, so it has to be a number.
    fn has_all<T: Name>(&self, point: usize, first: usize, names: &[T]) -> Result<(), Refusal>
        requires { first + length names.now < 2 ^ 64 }
        ensures { result ≡ all_present (scope_from self.now) point first (map T.named names.now) }
    {
        for (i, name) in names.iter().enumerate() {
            self.has(point, first + i, *name)?;
        }
        Ok(())
    }

    // That an operation names only what the method has.
    fn has_named(&self, point: usize, operation: &Operation) -> Result<(), Refusal>
        ensures { result ≡ all_present (scope_from self.now) point 0 (operands (op_of operation.now)) }
    {
        match operation {
            Operation::Return(value) => self.has(point, 0, *value),
            Operation::Jump(label) => self.has(point, 0, *label),
            Operation::JumpIf(condition, label) => {
                self.has(point, 0, *condition)?;
                self.has(point, 1, *label)
            }
            Operation::JumpList(selector, labels) => {
                self.has(point, 0, *selector)?;
                self.has_all(point, 1, labels.as_slice())
            }
            Operation::Invoke {
                into,
                receiver,
                arguments,
                ..
            } => {
                self.has(point, 0, *into)?;
                self.has(point, 1, *receiver)?;
                self.has_all(point, 3, arguments.as_slice())
            }
        }
    }

    fn has_all_named(&self, code: &[Operation]) -> Result<(), Refusal>
        ensures { result ≡ code_names (scope_from self.now) 0 (map op_of code.now) }
    {
        for (point, operation) in code.iter().enumerate() {
            self.has_named(point, operation)?;
        }
        Ok(())
    }
}

// Whether nothing runs on past the operation.
fn leaves(operation: &Operation) -> bool
    ensures { result ≡ leaves (op_of operation.now) }
{
    match operation {
        Operation::Return(_) | Operation::Jump(_) => true,
        _ => false,
    }
}

fn is_labelled(labels: &[Label], point: usize) -> bool
    ensures { result ≡ labelled (map label_of labels.now) point }
{
    labels.iter().any(|label| usize::from(label.point) == point)
}

// The last operation leaves, and behind any other that leaves stands a label.
fn code_ends(code: &[Operation], labels: &[Label]) -> Result<(), Refusal>
    ensures { result ≡ code_ends (map label_of labels.now) 0 (map op_of code.now) }
{
    let Some((last, others)) = code.split_last() else {
        return Ok(());
    };
    for (point, operation) in others.iter().enumerate() {
        if leaves(operation) && !is_labelled(labels, point + 1) {
            return Err(Refusal::OpenEnd { point });
        }
    }
    demand(
        leaves(last),
        Refusal::OpenEnd {
            point: others.len(),
        },
    )
}

// The rules, one after the other over the whole method.
fn first_fault(method: &Method) -> Result<(), Refusal>
    ensures { result ≡ form_of (method_of method.now) }
{
    let code = method.code.as_slice();
    let labels = method.labels.as_slice();
    labels_rise(labels, code.len())?;
    let scope = Scope {
        locals: method.arguments.len() + 1,
        temporaries: usize::from(method.temporaries),
        labels: labels.len(),
    };
    scope.has_all_named(code)?;
    code_ends(code, labels)
}

// The first fault of a method's form, if there is one.
pub fn form(method: &Method) -> Result<(), Refusal>
    ensures value { result ≡ form_of (method_of method.now) }
    // no fault is found exactly in well-formed methods, and the fault that is told is the first
    ensures exact { (result ≡ Ok tt → WellFormed (method_of method.now)) × (WellFormed (method_of method.now) → result ≡ Ok tt) }
    ensures first { IfErr result (FirstFault (method_of method.now)) }
{
    first_fault(method)
}
