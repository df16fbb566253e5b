//! The elements and attributes of a sheet.

ghost use Rattle.std.specs.Prelude.{◌≡◌};
ghost use Rattle.mbdc_sheet.specs.Parts.{parts_of};
ghost use Rattle.mbdc_sheet.specs.Tag.{after_name, are_attributes, are_calls, has_quote, is_attribute};
ghost use Rattle.mbdc_sheet.specs.Tag.{is_named_fine, is_plain, is_tag, name_of};

use crate::parts::{first_part, is_one_of};
use crate::text::is_date;

// The elements that a sheet has.
const ELEMENTS: &[u8] =
    b"!doctype html head meta title style body a header h1 h2 div dl dt dd main p table thead tbody tr th \
    td span ul li figure figcaption svg desc g rect line text code bdi address";

// The attributes of these elements, and those of them that are read out or shown beside an element.
const ATTRIBUTES: &[u8] =
    b"lang= charset= name= content= http-equiv= class= id= href= download= role= tabindex= scope= colspan= \
    aria-labelledby= aria-hidden= aria-label= data-user= data-label= data-use= data-month= data-line= \
    data-fixed= viewBox= width= height= x= y= x1= x2= y1= y2= fill= font-family= font-size= text-anchor= \
    stroke= stroke-width= stroke-dasharray=";

const READ_OUT: &[u8] = b"aria-label= data-label=";

// Most bytes of a tag, and of a style.
const LONGEST_TAG: usize = 1024;

const LONGEST_STYLE: usize = 16_384;

/// The element that a tag names.
pub(crate) fn name_of(tag: &[u8]) -> &[u8]
    ensures { result.now ≡ name_of tag.now }
{
    let (name, _) = first_part(tag, b' ');
    match name {
        [b'/', name @ ..] => name,
        name => name,
    }
}

// Whether a name is one of a sheet, and what is read out of its value has no digit, but in a date.
fn is_named_fine(name: &[u8], value: &[u8]) -> bool
    ensures { result ≡ is_named_fine name.now value.now }
{
    is_one_of(ATTRIBUTES, name) && (!is_one_of(READ_OUT, name) || is_date(value))
}

// Whether an attribute is fine, by its name up to the quotation mark, and its value.
fn is_attribute(name: &[u8], value: &[u8]) -> bool
    ensures { result ≡ is_attribute name.now value.now }
{
    match name {
        [b' ', name @ ..] => is_named_fine(name, value),
        _ => false,
    }
}

// Whether a text is attributes and nothing more.
fn are_attributes(text: &[u8]) -> bool
    ensures { result ≡ are_attributes (parts_of 34 text.now) }
{
    let (name, rest) = first_part(text, b'"');
    let Some(rest) = rest else {
        return name.is_empty();
    };
    let (value, rest) = first_part(rest, b'"');
    let Some(rest) = rest else {
        return false;
    };
    are_attributes(rest) && is_attribute(name, value)
}

// What a tag has after the name of its element.
fn after_name(tag: &[u8]) -> &[u8]
    ensures { result.now ≡ after_name tag.now }
{
    let (name, _) = first_part(tag, b' ');
    tag.get(name.len()..).unwrap_or_default()
}

/// Whether a tag names an element of a sheet, with fine attributes.
pub(crate) fn is_tag(tag: &[u8]) -> bool
    ensures { result ≡ is_tag tag.now }
{
    tag.len() <= LONGEST_TAG && is_one_of(ELEMENTS, name_of(tag)) && are_attributes(after_name(tag))
}

// Whether no call of a style adds text.
fn are_calls(style: &[u8]) -> bool
    ensures { result ≡ are_calls (parts_of 40 style.now) }
{
    let (before, rest) = first_part(style, b'(');
    let Some(rest) = rest else {
        return true;
    };
    let (after, _) = first_part(rest, b'(');
    (before.ends_with(b" ") || (before.ends_with(b"attr") && after.starts_with(b"data-label)")))
        && are_calls(rest)
}

// Whether a style has a quotation mark or a backslash.
fn has_quote(style: &[u8]) -> bool
    ensures { result ≡ has_quote style.now }
{
    style
        .iter()
        .any(|byte| *byte == b'"' || *byte == b'\'' || *byte == b'\\')
}

/// Whether a style adds no text: it has no quotation mark, no backslash, and no call that does.
pub(crate) fn is_plain(style: &[u8]) -> bool
    ensures { result ≡ is_plain style.now }
{
    style.len() <= LONGEST_STYLE && !has_quote(style) && are_calls(style)
}
