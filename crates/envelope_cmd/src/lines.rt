//! The lines of a report.

ghost use Rattle.std.specs.Prelude.{◌≡◌, ◌++◌, OnOk};
ghost use Rattle.xml_profile.specs.CanonicalText.{text_byte, value_byte, value_text};
ghost use Rattle.envelope_cmd.specs.Lines.{address_line, line, text_line, where_some};

use at_base::epr::Epr;
use at_base::text::Text;
use std::alloc::AllocError;

/// Adds a text to the end.
pub fn push(text: &str, out: &mut Vec<u8>) -> Result<(), AllocError>
    ensures { OnOk result (out.new.items ≡ out.old.items ++ text.now) }
{
    out.extend_from_slice(text.as_bytes())
}

/// Adds the line of a name and a word.
#[tactic(auto, unfolding(crate::specs::Lines::line))]
pub fn push_line(name: &str, word: &str, out: &mut Vec<u8>) -> Result<(), AllocError>
    ensures { OnOk result (out.new.items ≡ out.old.items ++ line name.now word.now) }
{
    push(name, out)?;
    push(" ", out)?;
    push(word, out)?;
    push("\n", out)
}

/// Adds the line of a name and a text, escaped as an attribute's value is in the canonical text.
#[tactic(auto, unfolding(crate::specs::Lines::line, crate::specs::Lines::text_line))]
fn push_text_line(name: &str, text: &str, out: &mut Vec<u8>) -> Result<(), AllocError>
    ensures { OnOk result (out.new.items ≡ out.old.items ++ text_line name.now text.now) }
{
    push(name, out)?;
    push(" ", out)?;
    push_value(text, out)?;
    push("\n", out)
}

/// Adds the line of a text of the message.
pub fn push_text(name: &str, text: &Text, out: &mut Vec<u8>) -> Result<(), AllocError>
    ensures { OnOk result (out.new.items ≡ out.old.items ++ text_line name.now text.now) }
{
    push_text_line(name, text.as_str(), out)
}

/// Adds the line of a text where there is one.
pub fn push_text_if(name: &str, text: &Option<Text>, out: &mut Vec<u8>) -> Result<(), AllocError>
    ensures { OnOk result (out.new.items ≡ out.old.items ++ where_some (text_line name.now) text.now) }
{
    match text {
        Some(text) => push_text(name, text, out),
        None => Ok(()),
    }
}

/// Adds the line of an endpoint: its address.
pub fn push_address(name: &str, epr: &Epr, out: &mut Vec<u8>) -> Result<(), AllocError>
    ensures { OnOk result (out.new.items ≡ out.old.items ++ address_line name.now epr.now) }
{
    push_text(name, &epr.address, out)
}

/// Adds the line of an endpoint where there is one.
pub fn push_address_if(name: &str, epr: &Option<Epr>, out: &mut Vec<u8>) -> Result<(), AllocError>
    ensures { OnOk result (out.new.items ≡ out.old.items ++ where_some (address_line name.now) epr.now) }
{
    match epr {
        Some(epr) => push_address(name, epr, out),
        None => Ok(()),
    }
}

fn push_value(text: &str, out: &mut Vec<u8>) -> Result<(), AllocError>
    ensures { OnOk result (out.new.items ≡ out.old.items ++ value_text text.now) }
{
    for byte in text.as_bytes() {
        push_value_byte(*byte, out)?;
    }
    Ok(())
}

fn push_value_byte(byte: u8, out: &mut Vec<u8>) -> Result<(), AllocError>
    ensures { OnOk result (out.new.items ≡ out.old.items ++ value_byte byte) }
{
    match byte {
        b'"' => push("&quot;", out),
        b'\t' => push("&#9;", out),
        b'\n' => push("&#10;", out),
        _ => push_text_byte(byte, out),
    }
}

fn push_text_byte(byte: u8, out: &mut Vec<u8>) -> Result<(), AllocError>
    ensures { OnOk result (out.new.items ≡ out.old.items ++ text_byte byte) }
{
    match byte {
        b'&' => push("&amp;", out),
        b'<' => push("&lt;", out),
        b'>' => push("&gt;", out),
        b'\r' => push("&#13;", out),
        _ => out.extend_from_slice(&[byte]),
    }
}
