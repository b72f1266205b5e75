// The reader of the truck's capture file (01, "The truck's capture file").
#![tactic(auto)]

ghost use Rattle.std.specs.Prelude.{◌≡◌, IfOk, IfSome};
ghost use Rattle.capture.specs.Records.{kind_of, kind_number, kind_under, fits_kind, fits_can, good_record, as_header, header_found, reads, body_at, beyond, as_read};
ghost use Rattle.capture.specs.Located.{located_at, as_located};

// The kind of a record.
#[derive(Clone, Copy)]
pub enum Kind {
    Can,
    Clean,
    Faulty,
    Reset,
}

// A record that keeps the rules: its kind, its body, which is a part of the capture, and where the next record starts.
#[derive(Clone, Copy)]
pub struct Record<'a> {
    pub kind: Kind,
    pub body: &'a [u8],
    pub next: usize,
}

// What stands at a place is not a whole record, or breaks the rules.
#[derive(Clone, Copy)]
pub struct Damaged;

impl From<Kind> for u8 {
    ghost from_gives = { λ kind number. number ≡ kind_number kind };

    fn from(kind: Kind) -> u8 {
        match kind {
            Kind::Can => 1,
            Kind::Clean => 2,
            Kind::Faulty => 3,
            Kind::Reset => 4,
        }
    }
}

impl TryFrom<u8> for Kind {
    type Error = Damaged;

    ghost try_from_gives = { λ number result. result ≡ kind_under number };

    fn try_from(number: u8) -> Result<Kind, Damaged> {
        match number {
            1 => Ok(Kind::Can),
            2 => Ok(Kind::Clean),
            3 => Ok(Kind::Faulty),
            4 => Ok(Kind::Reset),
            _ => Err(Damaged),
        }
    }
}

impl Kind {
    // Whether a record of this kind may have this length.
    fn fits(self, length: u16) -> bool
        ensures { result ≡ fits_kind (kind_number self) length }
    {
        match self {
            Kind::Can => (4..=12).contains(&length),
            Kind::Clean | Kind::Faulty => length == 3,
            Kind::Reset => length == 2,
        }
    }

    // Whether a record of this kind may have this identifier.
    fn fits_can(self, identifier: u16) -> bool
        ensures { result ≡ fits_can (kind_number self) identifier }
    {
        !matches!(self, Kind::Can) || identifier <= 2047
    }
}

// Whether the bytes begin with a record that is whole and keeps the rules, where its kind is this one.
#[tactic(auto, unfolding(crate::specs::Records::good_record))]
fn is_good_record(bytes: &[u8], kind: Kind) -> bool
    requires { kind_number kind ≡ kind_of bytes.now }
    ensures { result ≡ good_record bytes.now }
{
    let length = octets::half(bytes, 0);
    2 + usize::from(length) <= bytes.len()
        && octets::byte(bytes, 2) == 1
        && kind.fits(length)
        && kind.fits_can(octets::half(bytes, 4))
}

// The header of the record with which the bytes begin: its kind, and how many bytes its body has.
#[tactic(auto, unfolding(crate::specs::Records::header_found, crate::specs::Records::good_record))]
fn find_header(bytes: &[u8]) -> Result<(Kind, usize), Damaged>
    ensures { as_header result ≡ header_found bytes.now }
{
    let kind = Kind::try_from(octets::byte(bytes, 3))?;
    if is_good_record(bytes, kind) {
        let length = usize::from(octets::half(bytes, 0));
        return Ok((kind, length.saturating_sub(2)));
    }
    Err(Damaged)
}

// The record at a place, or none at the end of the capture, or that what stands there is damaged.
#[tactic(auto, using(crate::proofs::Laws::places))]
pub fn read<'a>(capture: &'a [u8], at: usize) -> Result<Option<Record<'a>>, Damaged>
    ensures given { as_read at result ≡ reads capture.now at }
    ensures place { IfOk result (λ found. IfSome found (λ one. one.body.ref_ptr ≡ beyond capture.entry.ref_ptr (body_at capture.now at))) }
{
    if capture.len() < at {
        return Err(Damaged); // past the end
    }
    let bytes = &capture[at..];
    if bytes.is_empty() {
        return Ok(None);
    }
    // 01 names this form: the header taken apart by `let .. else`, its else path answering number 10, which is Damaged.
    let Ok((kind, size)) = find_header(bytes) else {
        return Err(Damaged);
    };
    Ok(Some(Record {
        kind,
        body: &bytes[4..4 + size],
        next: at + 4 + size,
    }))
}

// The same answer in four places: the kind or the end mark, where the next record starts, where the body starts, its length. The numbers and
// the places are the C interface's (`boot_assist_flat_read`).
#[tactic(auto, using(crate::proofs::Locating::located_record, crate::proofs::Locating::located_end), unfolding(crate::specs::Located::located_at))]
pub fn locate(capture: &[u8], at: usize, fields: &mut [usize]) -> u8
    ensures { as_located result fields.new ≡ located_at capture.now at fields.old }
{
    let Ok(found) = read(capture, at) else {
        return 10;
    };
    if fields.len() != 4 {
        return 9;
    }
    let located = match found {
        Some(record) => {
            let kind = u8::from(record.kind);
            let length = record.body.len();
            let start = record.next.saturating_sub(length);
            [usize::from(kind), record.next, start, length]
        }
        None => [0, at, at, 0], // the end mark
    };
    fields.copy_from_slice(&located);
    0
}
