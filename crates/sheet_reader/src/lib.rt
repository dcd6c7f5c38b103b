// Reads a sheet: fields of a tag, a length and content. A sheet is not copied out of its bytes: reading finds where its parts stand.
#![tactic(auto)]

ghost use Rattle.std.specs.Prelude.{◌≡◌, ◌+◌, ◌≤◌, length, get_or, set};
ghost use Rattle.sheet_ranges.specs.Sheets.{empty_sheet};
ghost use Rattle.sheet_reader.specs.Reading.{given_of, layout_may_come, view_may_come, step_may_come, edition_refusal, layout_refusal, view_refusal, step_refusal, field_refusal, refused_read, read_sheet};
ghost use Rattle.sheet_reader.specs.Parts.{part_places, first_view, first_step, given_edition, given_layout, given_view, given_step, more_given, more_parts, outline_of, Outlined};

use fields::{Cursor, Field};
use refusals::{
    BEYOND_SIZES, CUT_SHORT, OUT_OF_ORDER, Refusal, UNKNOWN_EDITION, UNKNOWN_TAG, WRONG_LENGTH,
};
use sheet::{Sheet, codes, editions, sizes};
use sheet_ranges::steps;
use tensor_ranges::{layouts, views};

// Where the parts of a sheet stand has a place for each layout, then for each view, then for each step.
pub const FIRST_VIEW: usize = sizes::LAYOUTS;

pub const FIRST_STEP: usize = FIRST_VIEW + sizes::VIEWS;

pub const PARTS: usize = FIRST_STEP + sizes::STEPS;

// What a sheet has so far: its edition, 0 for none, and how many layouts, views and steps.
#[derive(Clone, Copy)]
pub struct Given {
    pub edition: u8,
    pub layouts: usize,
    pub views: usize,
    pub steps: usize,
}

// What reading gives: the sheet, or a refusal with an empty sheet.
#[derive(Clone, Copy)]
pub struct ReadAnswer {
    pub refusal: Refusal,
    pub sheet: Sheet,
}

// The same of a sheet whose parts stay in its bytes.
#[derive(Clone, Copy)]
pub struct Outline {
    pub refusal: Refusal,
    pub given: Given,
}

// A field's refusal, 0 where it is taken, and what the sheet then has.
#[derive(Clone, Copy)]
pub struct FieldRead {
    pub number: u8,
    pub given: Given,
}

// Refusal 3: a layout after the edition and before any view or step, and not too many.
fn layout_may_come(given: Given) -> bool
    ensures { result ≡ layout_may_come given }
{
    if given.edition < 1 {
        return false;
    }
    if given.views != 0 {
        return false;
    }
    if given.steps != 0 {
        return false;
    }
    given.layouts < sizes::LAYOUTS
}

fn view_may_come(given: Given) -> bool
    ensures { result ≡ view_may_come given }
{
    if given.edition < 1 {
        return false;
    }
    if given.steps != 0 {
        return false;
    }
    given.views < sizes::VIEWS
}

fn step_may_come(given: Given) -> bool
    ensures { result ≡ step_may_come given }
{
    if given.edition < 1 {
        return false;
    }
    let most = editions::limits(given.edition);
    given.steps < most.steps
}

fn edition_refusal(s: &[u8], start: usize, len: usize, given: Given) -> u8
    requires { start + len ≤ length s.now }
    ensures { result ≡ edition_refusal s.now start len given }
{
    if 0 < given.edition {
        return OUT_OF_ORDER;
    }
    if len != 1 {
        return WRONG_LENGTH;
    }
    if !editions::edition_ok(s[start]) {
        return UNKNOWN_EDITION;
    }
    0
}

fn layout_refusal(s: &[u8], start: usize, len: usize, given: Given) -> u8
    requires { start + len ≤ length s.now }
    ensures { result ≡ layout_refusal s.now start len given }
{
    if !layout_may_come(given) {
        return OUT_OF_ORDER;
    }
    if !contents::layout_length_ok(len) {
        return WRONG_LENGTH;
    }
    if !contents::layout_head_ok(s, start, len) {
        return BEYOND_SIZES;
    }
    let l = contents::layout_at(s, start, len);
    if !layouts::layout_ok(l) {
        return BEYOND_SIZES;
    }
    0
}

fn view_refusal(s: &[u8], start: usize, len: usize, given: Given) -> u8
    requires { start + len ≤ length s.now }
    ensures { result ≡ view_refusal s.now start len given }
{
    if !view_may_come(given) {
        return OUT_OF_ORDER;
    }
    if !contents::view_length_ok(len) {
        return WRONG_LENGTH;
    }
    if !contents::view_head_ok(s, start, len) {
        return BEYOND_SIZES;
    }
    let v = contents::view_at(s, start, len);
    if !views::view_ok(v) {
        return BEYOND_SIZES;
    }
    0
}

fn step_refusal(s: &[u8], tag: u8, start: usize, len: usize, given: Given) -> u8
    requires { start + len ≤ length s.now }
    ensures { result ≡ step_refusal s.now tag start len given }
{
    let edition = given.edition;
    if !editions::tag_known(edition, tag) {
        return UNKNOWN_TAG;
    }
    if !step_may_come(given) {
        return OUT_OF_ORDER;
    }
    if len != step_contents::step_length(edition, tag) {
        return WRONG_LENGTH;
    }
    let found = step_contents::step_at(s, edition, tag, start, given.layouts, given.views);
    if steps::step_unused(found) {
        return BEYOND_SIZES;
    }
    0
}

fn read_edition(s: &[u8], start: usize, len: usize, given: Given) -> FieldRead
    requires { start + len ≤ length s.now }
    ensures number_value { result.number ≡ edition_refusal s.now start len given }
    ensures given_value { result.number ≡ 0 → result.given ≡ given_edition (get_or s.now start 0) given }
{
    let number = edition_refusal(s, start, len, given);
    if 0 < number {
        return FieldRead { number, given };
    }
    FieldRead {
        number,
        given: Given {
            edition: s[start],
            layouts: given.layouts,
            views: given.views,
            steps: given.steps,
        },
    }
}

fn read_layout(
    s: &[u8],
    parts: &mut [usize; PARTS],
    at: usize,
    start: usize,
    len: usize,
    given: Given,
) -> FieldRead
    requires { start + len ≤ length s.now }
    ensures number_value { result.number ≡ layout_refusal s.now start len given }
    ensures given_value { result.number ≡ 0 → (result.given ≡ given_layout given) × (parts.new ≡ set parts.old given.layouts at) }
{
    let number = layout_refusal(s, start, len, given);
    if 0 < number {
        return FieldRead { number, given };
    }
    let k = given.layouts;
    parts[k] = at;
    FieldRead {
        number,
        given: Given {
            edition: given.edition,
            layouts: k + 1,
            views: given.views,
            steps: given.steps,
        },
    }
}

fn read_view(
    s: &[u8],
    parts: &mut [usize; PARTS],
    at: usize,
    start: usize,
    len: usize,
    given: Given,
) -> FieldRead
    requires { start + len ≤ length s.now }
    ensures number_value { result.number ≡ view_refusal s.now start len given }
    ensures given_value { result.number ≡ 0 → (result.given ≡ given_view given) × (parts.new ≡ set parts.old (first_view + given.views) at) }
{
    let number = view_refusal(s, start, len, given);
    if 0 < number {
        return FieldRead { number, given };
    }
    let k = given.views;
    parts[FIRST_VIEW + k] = at;
    FieldRead {
        number,
        given: Given {
            edition: given.edition,
            layouts: given.layouts,
            views: k + 1,
            steps: given.steps,
        },
    }
}

fn read_step(
    s: &[u8],
    parts: &mut [usize; PARTS],
    tag: u8,
    at: usize,
    start: usize,
    len: usize,
    given: Given,
) -> FieldRead
    requires { start + len ≤ length s.now }
    ensures number_value { result.number ≡ step_refusal s.now tag start len given }
    ensures given_value { result.number ≡ 0 → (result.given ≡ given_step given) × (parts.new ≡ set parts.old (first_step + given.steps) at) }
{
    let number = step_refusal(s, tag, start, len, given);
    if 0 < number {
        return FieldRead { number, given };
    }
    let k = given.steps;
    parts[FIRST_STEP + k] = at;
    FieldRead {
        number,
        given: Given {
            edition: given.edition,
            layouts: given.layouts,
            views: given.views,
            steps: k + 1,
        },
    }
}

// The field's tag chooses the reader, or refusal 2.
fn read_field(
    s: &[u8],
    parts: &mut [usize; PARTS],
    tag: u8,
    at: usize,
    start: usize,
    len: usize,
    given: Given,
) -> FieldRead
    requires { start + len ≤ length s.now }
    ensures number_value { result.number ≡ field_refusal s.now tag start len given }
    ensures given_value { result.number ≡ 0 → (result.given ≡ more_given s.now tag start given) × (parts.new ≡ more_parts tag at given parts.old) }
{
    match tag {
        codes::EDITION_TAG => read_edition(s, start, len, given),
        codes::LAYOUT_TAG => read_layout(s, parts, at, start, len, given),
        codes::VIEW_TAG => read_view(s, parts, at, start, len, given),
        codes::FILL_TAG..=codes::LAST_STEP_TAG => {
            read_step(s, parts, tag, at, start, len, given)
        }
        _ => FieldRead {
            number: UNKNOWN_TAG,
            given,
        },
    }
}

pub fn nothing_given() -> Given
    ensures { result ≡ given_of empty_sheet }
{
    Given {
        edition: 0,
        layouts: 0,
        views: 0,
        steps: 0,
    }
}

fn refuse(number: u8, place: usize) -> Outline
    ensures { result ≡ outline_of (refused_read number place) }
{
    Outline {
        refusal: refusals::refusal_at(number, place, 0),
        given: nothing_given(),
    }
}

// Reads the sheet that the bytes are, or gives the number and the place of the first refusal. The lent places are told where its parts
// stand, so that nothing of the sheet's size is copied: a pass takes each part from the bytes when it comes to it.
pub fn outline_sheet(s: &[u8], parts: &mut [usize; PARTS]) -> Outline
    requires { length parts.old ≡ part_places }
    ensures value { result ≡ outline_of (read_sheet s.now) }
    ensures outlined { result.refusal.number ≡ 0 → Outlined s.now parts.new result.given }
{
    let mut c = Cursor { at: 0 };
    let mut given = nothing_given();
    while c.at < s.len() {
        let at = c.at;
        let Field::Whole {
            tag,
            start,
            len,
            next,
        } = c.field(s)
        else {
            return refuse(CUT_SHORT, at);
        };
        let read = read_field(s, parts, tag, at, start, len, given);
        if 0 < read.number {
            return refuse(read.number, at);
        }
        given = read.given;
        c = next;
    }
    if given.edition < 1 {
        return refuse(OUT_OF_ORDER, s.len());
    }
    Outline {
        refusal: refusals::not_refused(),
        given,
    }
}
