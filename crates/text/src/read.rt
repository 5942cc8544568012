// Reading a whole text.
ghost use Rattle.std.specs.Prelude.{◌≡◌, ◌≤◌, [], IfOk};
ghost use Rattle.semantics.specs.Methods.{method_of, InRange};
ghost use Rattle.semantics.specs.Printing.{method_text};
ghost use Rattle.semantics.specs.Reading.{head_at, labels_on, code_on, method_in};
ghost use Rattle.text.specs.Lines.{left_of, read_as};
ghost use Rattle.text.specs.Whole.{head_of, labels_of, code_of, saying_as};

use crate::label::Temporaries;
use crate::number::{MAX_NAME, MAX_NUMBER};
use crate::reader::Reader;
use semantics::array_vec::ArrayVec;
use semantics::method::{Label, Method};
use semantics::operation::Operation;
use semantics::refusal::Refusal;

const MAX_TEMPORARIES: u8 = 8;

const MAX_LABELS: usize = 16;

const MAX_POINTS: usize = 64;

// The five lines that every method begins with.
#[derive(Clone, Copy)]
pub struct Head {
    pub class: u8,
    pub name: u8,
    pub arguments: ArrayVec<u8, 7>,
    pub result: u8,
    pub temporaries: Temporaries,
}

fn read_head(reader: &mut Reader<'_>) -> Result<Head, Refusal>
    ensures { read_as head_of result (left_of reader.new) ≡ head_at (left_of reader.old) }
{
    let class = reader.number(b"class=", MAX_NUMBER)?;
    let name = reader.number(b"name=", MAX_NAME)?;
    let arguments = reader.arguments()?;
    let result = reader.number(b"result=", MAX_NUMBER)?;
    let count = reader.number(b"temps=", MAX_TEMPORARIES)?;
    Ok(Head {
        class,
        name,
        arguments,
        result,
        temporaries: Temporaries { count },
    })
}

fn read_labels(
    reader: &mut Reader<'_>,
    temporaries: Temporaries,
) -> Result<ArrayVec<Label, 16>, Refusal>
    ensures { read_as labels_of result (left_of reader.new) ≡ labels_on 16 temporaries.count [] (left_of reader.old) }
{
    let mut labels = ArrayVec::new(Label {
        point: 0,
        row: ArrayVec::new(0),
    });
    while reader.begins(b"label=") {
        if labels.len() == MAX_LABELS {
            return Err(Refusal::Line { at: reader.place() });
        }
        let _ = labels.push(reader.label(temporaries)?);
    }
    Ok(labels)
}

fn read_code(reader: &mut Reader<'_>) -> Result<ArrayVec<Operation, 64>, Refusal>
    ensures { saying_as code_of result ≡ code_on 64 [] (left_of reader.old) }
{
    let mut code = ArrayVec::new(Operation::Jump(0));
    while code.len() < MAX_POINTS {
        let _ = code.push(reader.operation()?);
        if reader.is_done() {
            return Ok(code);
        }
    }
    Err(Refusal::Line { at: reader.place() })
}

// The method that a text says, or the first refusal; a text that is read is the only text of its method.
pub fn read(text: &[u8]) -> Result<Method, Refusal>
    ensures value { saying_as method_of result ≡ method_in text.now }
    ensures only { IfOk result (λ m. (text.now ≡ method_text (method_of m)) × InRange (method_of m)) }
{
    let mut reader = Reader::new(text);
    let Head {
        class,
        name,
        arguments,
        result,
        temporaries,
    } = read_head(&mut reader)?;
    let labels = read_labels(&mut reader, temporaries)?;
    let code = read_code(&mut reader)?;
    Ok(Method {
        class,
        name,
        arguments,
        result,
        temporaries: temporaries.count,
        labels,
        code,
    })
}
