//! Paths by short names: `S3` is a slot, `S3F1` the field 1 of the object in it.

use ix_core::Path;

pub const S0: Path = Path::Slot(0);

pub const S1: Path = Path::Slot(1);

pub const S2: Path = Path::Slot(2);

pub const S3: Path = Path::Slot(3);

pub const S4: Path = Path::Slot(4);

pub const S5: Path = Path::Slot(5);

pub const S6: Path = Path::Slot(6);

pub const S7: Path = Path::Slot(7);

pub const S8: Path = Path::Slot(8);

pub const S9: Path = Path::Slot(9);

pub const S0F0: Path = Path::FieldOf(0, 0);

pub const S0F1: Path = Path::FieldOf(0, 1);

pub const S0F2: Path = Path::FieldOf(0, 2);

pub const S0F7: Path = Path::FieldOf(0, 7);

pub const S1F0: Path = Path::FieldOf(1, 0);

pub const S1F9: Path = Path::FieldOf(1, 9);

pub const S3F0: Path = Path::FieldOf(3, 0);

pub const S3F1: Path = Path::FieldOf(3, 1);

pub const S4F0: Path = Path::FieldOf(4, 0);

pub const S4F1: Path = Path::FieldOf(4, 1);

pub const S9F0: Path = Path::FieldOf(9, 0);

pub const S9F1: Path = Path::FieldOf(9, 1);

pub const S9F7: Path = Path::FieldOf(9, 7);
