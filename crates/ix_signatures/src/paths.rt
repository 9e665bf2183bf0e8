//! The paths of names and of claims.

ghost use Rattle.std.specs.Prelude.{◌≡◌, ◌+◌, ◌<◌, ◌^◌};
ghost use Rattle.ix_core.specs.Objects.{claim_names, offset_names};
ghost use Rattle.ix_core.specs.Tables as tables;
ghost use Rattle.ix_core.specs.Ready as ready;
ghost use Rattle.ix_rules_hold.specs.MachineSteps as steps;
ghost use Rattle.ix_signatures.specs.Names as names;
ghost use Rattle.ix_signatures.specs.Naming.{path_by, IsSmallName, AreSmallNames};

use crate::naming::Naming;
use ix_core::{CallOp, Claim, Method, Name, Off, Path, PathClaim, PathOff};

/// The slot of a parameter: after `this`, but in a static method.
pub fn param_slot(method: &Method, number: u32) -> u32
    requires { number + 1 < 2 ^ 32 }
    ensures { result ≡ tables.param_slot method.now number }
{
    if method.is_static { number } else { number + 1 }
}

/// The slot of a local; 0 where the method has no such local.
fn local_slot(method: &Method, number: u32) -> u32
    ensures { result ≡ ready.local_slot method.now number }
{
    match method.locals.as_slice().get(number as usize) {
        Some(local) => local.0.slot,
        None => 0,
    }
}

/// The slot of an argument; 0 where the call has no such argument.
fn arg_slot(call: &CallOp, number: u32) -> u32
    ensures { result ≡ names.arg_slot call.now number }
{
    match call.args.as_slice().get(number as usize) {
        Some(arg) => arg.slot,
        None => 0,
    }
}

fn own_path(method: &Method, name: &Name) -> Path
    requires { IsSmallName name.now }
    ensures { result ≡ steps.own_path method.now name.now }
{
    match *name {
        Name::Param(number) => Path::Slot(param_slot(method, number)),
        Name::Local(number) => Path::Slot(local_slot(method, number)),
        Name::FieldNamed(field) => Path::FieldOf(0, field),
    }
}

fn call_path(call: &CallOp, name: &Name) -> Path
    ensures { result ≡ names.call_path call.now name.now }
{
    match *name {
        Name::Param(number) => Path::Slot(arg_slot(call, number)),
        Name::Local(_) => Path::Slot(0),
        Name::FieldNamed(field) => Path::FieldOf(call.receiver.unwrap_or(0), field),
    }
}

fn object_path(object: u32, name: &Name) -> Path
    ensures { result ≡ names.object_path object name.now }
{
    match *name {
        Name::FieldNamed(field) => Path::FieldOf(object, field),
        _ => Path::Slot(object),
    }
}

fn written_path(object: u32, field: u32, value: u32, name: &Name) -> Path
    ensures { result ≡ names.written_path object field value name.now }
{
    match *name {
        Name::FieldNamed(other) if other == field => Path::Slot(value),
        Name::FieldNamed(other) => Path::FieldOf(object, other),
        _ => Path::Slot(object),
    }
}

impl Naming<'_> {
    /// The path that the name stands for.
    pub fn path(&self, name: &Name) -> Path
        requires { IsSmallName name.now }
        ensures { result ≡ path_by self.now name.now }
    {
        match *self {
            Naming::Inside(method) => own_path(method, name),
            Naming::AtCall(call) => call_path(call, name),
            Naming::OfObject(object) => object_path(object, name),
            Naming::Writing(object, field, value) => written_path(object, field, value, name),
        }
    }

    fn offset(&self, offset: &Off) -> PathOff
        requires { AreSmallNames (offset_names offset.now) }
        ensures { result ≡ steps.path_offset (path_by self.now) offset.now }
    {
        match *offset {
            Off::Nothing => PathOff::Nothing,
            Off::Plus(name) => PathOff::Plus(self.path(&name)),
            Off::Minus(name) => PathOff::Minus(self.path(&name)),
        }
    }

    /// The claim, with the paths of its names.
    pub fn claim(&self, claim: &Claim) -> PathClaim
        requires { AreSmallNames (claim_names claim.now) }
        ensures { result ≡ steps.on_paths (path_by self.now) claim.now }
    {
        match *claim {
            Claim::Range(low, high) => PathClaim::Range(low, high),
            Claim::Low(low) => PathClaim::Low(low),
            Claim::Length(least) => PathClaim::Length(least),
            Claim::Same(other) => PathClaim::Same(self.path(&other)),
            Claim::Less(name, constant) => PathClaim::Less(self.path(&name), constant),
            Claim::Upper(array, offset, constant) => {
                PathClaim::Upper(self.path(&array), self.offset(&offset), constant)
            }
            Claim::Search(array) => PathClaim::Search(self.path(&array)),
            Claim::Negative(array) => PathClaim::Negative(self.path(&array)),
        }
    }
}
