//! The fields of a head, found by their names (RFC 9110, section 5).

ghost use Rattle.std.specs.Prelude.{ℕ, List, ◌≡◌, All, IfOk, OnOk, map};
ghost use Rattle.http_header.specs.FieldName.{IsFieldName};
ghost use Rattle.http_header.specs.FieldValue.{IsFieldValue, plain_value};
ghost use Rattle.http_header.specs.HeaderMap.{append, get_all};
ghost use Rattle.http_header.specs.Token.{lowercase};
ghost use Rattle.httparse.specs.Spans.{header_bytes};
ghost use Rattle.http_post.specs.FieldMaps.{CanBeKept, named};

use http_header::{HeaderMap, HeaderName, HeaderNameError, HeaderValue, HeaderValueError};
use httparse::spans::HeaderSpan;
use std::alloc::{AllocError, Global};

/// All fields at these places.
pub fn keep_all(alloc: Global, bytes: &[u8], places: &[HeaderSpan]) -> Result<HeaderMap, AllocError>
    requires { All (CanBeKept bytes.now) places.now }
    ensures { IfOk result (λ m. (name : List ℕ) → get_all m name ≡ named name (map (header_bytes bytes.now) places.now)) }
{
    let mut fields = HeaderMap::new(alloc);
    for place in places {
        keep_field(
            alloc,
            place.name.of(bytes),
            place.value.of(bytes),
            &mut fields,
        )?;
    }
    Ok(fields)
}

fn keep_field(
    alloc: Global,
    name: &[u8],
    value: &[u8],
    fields: &mut HeaderMap,
) -> Result<(), AllocError>
    requires name { IsFieldName name.now }
    requires value { IsFieldValue value.now }
    ensures { OnOk result (fields.new ≡ append fields.old (lowercase name.now) (plain_value value.now)) }
{
    let name = name_of(alloc, name)?;
    let value = value_of(alloc, value)?;
    match fields.append(name, value) {
        Ok(_) => Ok(()),
        Err(_) => Err(AllocError),
    }
}

fn name_of(alloc: Global, name: &[u8]) -> Result<HeaderName, AllocError>
    requires { IsFieldName name.now }
    ensures { IfOk result (λ n. n ≡ lowercase name.now) }
{
    match HeaderName::from_bytes(alloc, name) {
        Ok(name) => Ok(name),
        Err(HeaderNameError::OutOfMemory) => Err(AllocError),
        Err(HeaderNameError::Invalid) => unreachable!(),
    }
}

fn value_of(alloc: Global, value: &[u8]) -> Result<HeaderValue, AllocError>
    requires { IsFieldValue value.now }
    ensures { IfOk result (λ v. v ≡ plain_value value.now) }
{
    match HeaderValue::from_bytes(alloc, value) {
        Ok(value) => Ok(value),
        Err(HeaderValueError::OutOfMemory) => Err(AllocError),
        Err(HeaderValueError::Invalid) => unreachable!(),
    }
}
