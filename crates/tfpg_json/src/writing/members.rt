//! Members of objects that are a number, a text or null.

ghost use Rattle.std.specs.Prelude.{◌≡◌, ◌++◌, OnOk};
ghost use Rattle.serde_json.specs.Data.{null, string};
ghost use Rattle.tfpg_json.specs.GraphData.{whole};
ghost use Rattle.tfpg_json.specs.inside.Tokens.{member_tokens};

use json::Writer;
use std::alloc::AllocError;

/// Appends a member that is a number.
pub(crate) fn append_number(name: &str, value: u64, into: &mut Writer) -> Result<(), AllocError>
    ensures before { into.new.before ≡ into.old.before }
    ensures ok { OnOk result
        (into.new.tokens ≡ into.old.tokens ++ member_tokens name.now (whole value)) }
{
    into.key(name)?;
    into.u64(value)
}

/// Appends a member that is a count.
pub(crate) fn append_count(name: &str, value: u32, into: &mut Writer) -> Result<(), AllocError>
    ensures before { into.new.before ≡ into.old.before }
    ensures ok { OnOk result
        (into.new.tokens ≡ into.old.tokens ++ member_tokens name.now (whole value)) }
{
    append_number(name, u64::from(value), into)
}

/// Appends a member that is a text.
pub(crate) fn append_text(name: &str, value: &str, into: &mut Writer) -> Result<(), AllocError>
    ensures before { into.new.before ≡ into.old.before }
    ensures ok { OnOk result
        (into.new.tokens ≡ into.old.tokens ++ member_tokens name.now (string value.now)) }
{
    into.key(name)?;
    into.string(value)
}

/// Appends a member that is null.
pub(crate) fn append_null(name: &str, into: &mut Writer) -> Result<(), AllocError>
    ensures before { into.new.before ≡ into.old.before }
    ensures ok { OnOk result (into.new.tokens ≡ into.old.tokens ++ member_tokens name.now null) }
{
    into.key(name)?;
    into.null()
}
