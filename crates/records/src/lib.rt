// One record of a trace, short or long: kind, length, the bytes, zero fill.
#![tactic(auto)]

ghost use Rattle.std.specs.Prelude.{◌≡◌, ◌≤◌, ◌<◌, length as List·length};
ghost use Rattle.records.specs.Form.{size_of, head_of, most_of};
ghost use Rattle.records.specs.Record.{length_at, second_set, record_bad};

#[derive(Clone, Copy)]
pub enum Form {
    // Document 01: kind, a byte of length.
    Short,
    // Document 02: kind, a zero, two bytes of length.
    Long,
}

impl Form {
    // How many bytes a record has.
    pub fn size(self) -> usize
        ensures { result ≡ size_of self }
    {
        match self {
            Form::Short => 64,
            Form::Long => 3_076,
        }
    }

    // How many stand before its data.
    pub fn head(self) -> usize
        ensures { result ≡ head_of self }
    {
        match self {
            Form::Short => 2,
            Form::Long => 4,
        }
    }

    // How many bytes of data it holds at most.
    pub fn most(self) -> usize
        ensures { result ≡ most_of self }
    {
        match self {
            Form::Short => 62,
            Form::Long => 3_072,
        }
    }
}

// Inner: the length that stands in a record.
pub fn length(form: Form, r: &[u8]) -> usize
    requires { 4 ≤ List·length r.now }
    ensures { (result ≡ length_at form r.now) × (result < 65536) }
{
    match form {
        Form::Short => le::wide(r[1]),
        Form::Long => le::le16(r, 2) as usize,
    }
}

// The second byte of a long record, which is to be 0, is not.
fn second(form: Form, r: &[u8]) -> bool
    requires { 4 ≤ List·length r.now }
    ensures { result ≡ second_set form r.now }
{
    match form {
        Form::Short => false,
        Form::Long => r[1] != 0,
    }
}

// A partial record, kind over 2, the second byte of a long one not 0, length over the most, a length with kind 1 or 2, nonzero fill.
pub fn bad(form: Form, r: &[u8]) -> bool
    ensures { result ≡ record_bad form r.now }
{
    if r.len() != form.size() {
        return true;
    }
    let kind = r[0];
    if 2 < kind {
        return true;
    }
    if second(form, r) {
        return true;
    }
    let n = length(form, r);
    if form.most() < n {
        return true;
    }
    if kind == 0 {
        return fill::any_set(r, form.head() + n);
    }
    if n != 0 {
        return true;
    }
    fill::any_set(r, form.head() + n)
}
