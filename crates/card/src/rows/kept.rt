// What is done with the rows of a card.
ghost use Rattle.std.specs.Prelude.{◌≡◌, [], map, length, slice_index_or};
ghost use Rattle.semantics.specs.Entries.{entry_of};
ghost use Rattle.semantics.specs.Items.{items_of, pushed};
ghost use Rattle.semantics.specs.Methods.{method_of};
ghost use Rattle.semantics.specs.Stores.{body_of, native, no_entry, code_in, code_of, method_with, points_in, points_of};

use crate::rows::Rows;
use machine::store::Store;
use semantics::array_vec::ArrayVec;
use semantics::body::{Body, Code};
use semantics::entry::Entry;
use semantics::method::Method;
use verifier::env::Env;

// The points of a row's code.
fn points_in(body: &Body) -> usize
    ensures { result ≡ points_in (body_of body.now) }
{
    match body {
        Body::Native => 0,
        Body::Coded(code) => code.points.len(),
    }
}

// The code of a method. A `From` would be no shorter, and hide that the signature is left behind.
pub fn code_in(method: &Method) -> Code
    ensures { code_of result ≡ code_in (method_of method.now) }
{
    Code {
        temporaries: method.temporaries,
        labels: method.labels,
        points: method.code,
    }
}

// The method of a signature and code. A `From` would take a pair made for it alone.
pub fn method_with(entry: &Entry, code: &Code) -> Method
    ensures { method_of result ≡ method_with (entry_of entry.now) (code_of code.now) }
{
    Method {
        class: entry.class,
        name: entry.name,
        arguments: entry.arguments,
        result: entry.result,
        temporaries: code.temporaries,
        labels: code.labels,
        code: code.points,
    }
}

// What stands in place of an entry where there is no row. Not a `Default`: an entry of zeros stands for nothing, and only fills.
fn no_entry() -> Entry
    ensures { entry_of result ≡ no_entry }
{
    Entry {
        class: 0,
        name: 0,
        arguments: ArrayVec::new(0),
        result: 0,
    }
}

impl Rows {
    pub fn none() -> Rows
        ensures entries { items_of result.entries ≡ [] }
        ensures bodies { items_of result.bodies ≡ [] }
    {
        Rows {
            entries: ArrayVec::new(no_entry()),
            bodies: ArrayVec::new(Body::Native),
        }
    }

    pub fn entries(&self) -> &[Entry]
        ensures { result.now ≡ items_of self.now.entries }
    {
        self.entries.as_slice()
    }

    pub fn bodies(&self) -> &[Body]
        ensures { result.now ≡ items_of self.now.bodies }
    {
        self.bodies.as_slice()
    }

    // What methods are checked in, over a table of classes.
    pub(crate) fn env<'a, T>(&'a self, table: &'a T) -> Env<'a, T>
        ensures table { result.table.now ≡ table.now }
        ensures entries { result.entries.now ≡ items_of self.now.entries }
    {
        Env {
            table,
            entries: self.entries.as_slice(),
        }
    }

    // What methods are run on, over a table of classes.
    pub(crate) fn store<'a, T>(&'a self, table: &'a T) -> Store<'a, T>
        ensures table { result.env.table.now ≡ table.now }
        ensures entries { result.env.entries.now ≡ items_of self.now.entries }
        ensures bodies { result.bodies.now ≡ items_of self.now.bodies }
    {
        Store {
            env: self.env(table),
            bodies: self.bodies.as_slice(),
        }
    }

    pub fn len(&self) -> usize
        ensures { result ≡ length (items_of self.now.entries) }
    {
        self.entries.len()
    }

    // All points of code together.
    pub fn points(&self) -> usize
        ensures { result ≡ points_of (map body_of (items_of self.now.bodies)) }
    {
        self.bodies.as_slice().iter().map(points_in).sum()
    }

    // One row more, where there is room.
    pub fn push(&mut self, entry: Entry, body: Body)
        ensures entries { items_of self.new.entries ≡ pushed 64 (items_of self.old.entries) entry }
        ensures bodies { items_of self.new.bodies ≡ pushed 64 (items_of self.old.bodies) body }
    {
        let _ = self.entries.push(entry);
        let _ = self.bodies.push(body);
    }
}
