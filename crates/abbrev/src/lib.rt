// Abbreviations and BLOCKINFO (src/bitstream.rs and src/read.rs of the Rust). Definitions are read straight into tables, which are lent beside the
// counts of what they hold. A row of the tables holds one abbreviation: its scalar operands, a slot each, and an array's element behind them.
// Each call is total and asks nothing of its caller: where the lent tables have no such row, there is no room (17).
#![tactic(auto)]

ghost use Rattle.std.specs.Prelude.{◌≡◌, ◌++◌, ◌+◌, ◌*◌, ◌<◌, ◌≤◌, length, drop};
ghost use Rattle.terms.specs.Limits.{max_operands, max_shared};
ghost use Rattle.bits.specs.Told.{Gives, of_read, of_move};
ghost use Rattle.abbrev.specs.Abbrev.{width, kind, operand, operands as operands_of, number_of};
ghost use Rattle.abbrev.specs.BlockInfo.{every, letters as letters_of, set_bid, block_name, record_name, info_record, info_numbered, info_item};
ghost use Rattle.abbrev.specs.Tables.{row_size, local_rows, shared_slots, KeptBut, tables, scalar_of, define_row, NothingHeld, of_operand, Elements, Defines, of_chosen, of_named, InfoDoes, Kept, InfoIs, info_all, info_block, picked, row_at, of_row};

use bitcode::ScalarOperand;
use bits::Cursor;
use terms::{MAX_LOCAL, MAX_OPERANDS, MAX_SHARED, Reason, Refused};

// The slots of a row: as many as an abbreviation has operands, and one.
pub const ROW: usize = 33;

// The rows: 32 shared ones and the one that is being read, then 32 local ones and the one that is being read.
pub const ROWS: usize = 66;

// The first local row.
pub const LOCAL: usize = 33;

// The slots of the shared rows, and all slots.
const SHARED_SLOTS: usize = 1089;

pub const SLOTS: usize = 2178;

// What an array and a blob add to a row's shape, which is else the count of its scalars.
pub const ARRAY_SHAPE: u64 = 33;

pub const BLOB_SHAPE: u64 = 66;

// A block's number.
#[derive(Clone, Copy, Debug, PartialEq, Eq)]
pub struct BlockNumber(pub u64);

// The number of an abbreviation in a block, which counts from 4.
#[derive(Clone, Copy, Debug, PartialEq, Eq)]
pub struct AbbrevNumber(pub u64);

// The abbreviation state: for each slot the operand's kind (0 literal, 1 fixed, 2 VBR, 3 char6) and its width or value; for each row its shape; for
// each shared row the number of the block that it is for; and how many rows are in use. Numbers in arrays of a fixed length, since there is no heap
// and document 01 names them so: a caller may lend any slices of them, and any numbers in a slot are an operand.
#[derive(Clone, Copy)]
pub struct Abbreviations {
    pub kinds: [u8; SLOTS],
    pub widths: [u64; SLOTS],
    pub shapes: [u64; ROWS],
    pub owners: [u64; MAX_SHARED],
    pub shared: usize,
    pub local: usize,
}

// An operand of a definition: a scalar, an array, a blob.
#[derive(Clone, Copy, Debug, PartialEq, Eq)]
enum Operand {
    Scalar(ScalarOperand),
    Array,
    Blob,
}

// An item of BLOCKINFO: its end; one shared abbreviation more, with its block and its shape; or the block that is chosen behind a record.
#[derive(Clone, Copy, Debug, PartialEq, Eq)]
enum InfoItem {
    End,
    Adds(BlockNumber, u64),
    Now(Option<BlockNumber>),
}

impl Abbreviations {
    // No abbreviation.
    pub fn new() -> Self
        ensures { NothingHeld result }
    {
        Self {
            kinds: [0; SLOTS],
            widths: [0; SLOTS],
            shapes: [0; ROWS],
            owners: [0; MAX_SHARED],
            shared: 0,
            local: 0,
        }
    }
}

// The scalar operand that a slot holds, for any two numbers: the tables are lent, so a kind that no slot is given is read as the last one.
pub fn scalar_operand(kind: u8, width: u64) -> ScalarOperand
    ensures { result ≡ scalar_of kind width }
{
    match kind {
        0 => ScalarOperand::Literal(width),
        1 => ScalarOperand::Fixed(width),
        2 => ScalarOperand::Vbr(width),
        _ => ScalarOperand::Char6,
    }
}

// The kind and the width, or value, of the slot that holds a scalar operand.
fn slot_of(operand: ScalarOperand) -> (u8, u64)
    ensures { scalar_of result.0 result.1 ≡ operand }
{
    match operand {
        ScalarOperand::Literal(v) => (0, v),
        ScalarOperand::Fixed(w) => (1, w),
        ScalarOperand::Vbr(w) => (2, w),
        ScalarOperand::Char6 => (3, 0),
    }
}

// An item's number, of the block's width.
pub fn read_number(c: Cursor, s: &[u8], width: u64) -> Result<(u64, Cursor), Reason>
    ensures { Gives c s.now (number_of width) (of_read result) }
{
    if width < 1 {
        return Err(Reason::VbrOverflow);
    }
    if 32 < width {
        return Err(Reason::VbrOverflow);
    }
    c.read(s, width)
}

// A width, vbr5.
fn read_width(c: Cursor, s: &[u8]) -> Result<(u64, Cursor), Reason>
    ensures { Gives c s.now width (of_read result) }
{
    let (w, d) = c.read_vbr(s, 5)?;
    if w < 1 || 32 < w {
        return Err(Reason::AbbrevWidthTooSmall(w));
    }
    Ok((w, d))
}

// The operand of a kind; `left` operands are left behind it.
fn read_kind(c: Cursor, s: &[u8], left: u64, k: u64) -> Result<(Operand, Cursor), Reason>
    ensures { Gives c s.now (kind left k) (of_operand result) }
{
    match k {
        1 => {
            let (w, d) = read_width(c, s)?;
            Ok((Operand::Scalar(ScalarOperand::Fixed(w)), d))
        }
        2 => {
            let (w, d) = read_width(c, s)?;
            Ok((Operand::Scalar(ScalarOperand::Vbr(w)), d))
        }
        3 if left == 1 => Ok((Operand::Array, c)),
        4 => Ok((Operand::Scalar(ScalarOperand::Char6), c)),
        5 if left == 0 => Ok((Operand::Blob, c)),
        _ => Err(Reason::InvalidAbbrev),
    }
}

// One operand: 1 bit; if 1, a literal, vbr8. Else 3 bits for the kind.
fn read_abbrev_op(c: Cursor, s: &[u8], left: u64) -> Result<(Operand, Cursor), Reason>
    ensures { Gives c s.now (operand left) (of_operand result) }
{
    let (b, d) = c.read(s, 1)?;
    if b == 1 {
        let (v, e) = d.read_vbr(s, 8)?;
        return Ok((Operand::Scalar(ScalarOperand::Literal(v)), e));
    }
    let (k, f) = d.read(s, 3)?;
    read_kind(f, s, left, k)
}

// An array's element, into the slot behind i scalars of the row at base: the row's shape.
fn read_element(
    c: Cursor,
    s: &[u8],
    kinds: &mut [u8],
    widths: &mut [u64],
    base: usize,
    i: usize,
) -> Result<(u64, Cursor), Reason>
    requires { (base + i < length kinds.old) × (base + i < length widths.old) × (i ≤ max_operands) }
    ensures kept { KeptBut (base + i) 1 kinds.old kinds.new widths.old widths.new }
    ensures gives { Elements c s.now kinds.new widths.new base i result }
{
    let (element, d) = read_abbrev_op(c, s, 0)?;
    match element {
        Operand::Array => Err(Reason::InvalidAbbrev),
        Operand::Blob => Err(Reason::UnexpectedOperand),
        Operand::Scalar(scalar) => {
            let j = base + i;
            let (kind, width) = slot_of(scalar);
            kinds[j] = kind;
            widths[j] = width;
            Ok((i as u64 + ARRAY_SHAPE, d))
        }
    }
}

// So many operands, into the row at base: the row's shape.
fn read_operands(
    mut c: Cursor,
    s: &[u8],
    total: usize,
    kinds: &mut [u8],
    widths: &mut [u64],
    base: usize,
) -> Result<(u64, Cursor), Reason>
    requires { (base + row_size ≤ length kinds.old) × (base + row_size ≤ length widths.old) × (total ≤ max_operands) }
    ensures kept { KeptBut base row_size kinds.old kinds.new widths.old widths.new }
    ensures gives { Defines c s.now (operands_of total) kinds.new widths.new base result }
{
    for i in 0..total {
        let (operand, d) = read_abbrev_op(c, s, (total - 1 - i) as u64)?;
        match operand {
            Operand::Blob => return Ok((i as u64 + BLOB_SHAPE, d)),
            Operand::Array => return read_element(d, s, kinds, widths, base, i),
            Operand::Scalar(scalar) => {
                let j = base + i;
                let (kind, width) = slot_of(scalar);
                kinds[j] = kind;
                widths[j] = width;
                c = d;
            }
        }
    }
    Ok((total as u64, c))
}

// A definition, into a row of the tables: the row's shape. Of what a refused one leaves in its row nothing is said: no number stands for that row.
pub fn define_abbrev(
    c: Cursor,
    s: &[u8],
    kinds: &mut [u8],
    widths: &mut [u64],
    row: usize,
) -> Result<(u64, Cursor), Reason>
    ensures kept { KeptBut (row_size * row) row_size kinds.old kinds.new widths.old widths.new }
    ensures gives { Defines c s.now (define_row row (length kinds.old) (length widths.old)) kinds.new widths.new (row_size * row) result }
{
    if ROWS <= row {
        return Err(Reason::NoAbbreviationRoom);
    }
    let base = ROW * row;
    if kinds.len() < base + ROW {
        return Err(Reason::NoAbbreviationRoom);
    }
    if widths.len() < base + ROW {
        return Err(Reason::NoAbbreviationRoom);
    }
    let (n, d) = c.read_vbr(s, 5)?;
    if MAX_OPERANDS < n {
        return Err(Reason::NoAbbreviationRoom);
    }
    read_operands(d, s, n as usize, kinds, widths, base)
}

// So many name letters, each judged as it is read.
fn read_letters(mut c: Cursor, s: &[u8], count: u64) -> Result<Cursor, Reason>
    ensures { Gives c s.now (letters_of count) (of_move result) }
{
    for _ in 0..count {
        let (letter, d) = c.read_vbr(s, 6)?;
        if 255 < letter {
            return Err(Reason::ValueOverflow);
        }
        c = d;
    }
    Ok(c)
}

// SETBID: exactly one operand, a block number.
fn read_set_bid(c: Cursor, s: &[u8], count: u64) -> Result<(Option<BlockNumber>, Cursor), Reason>
    ensures { Gives c s.now (set_bid every count) (of_named result) }
{
    if count != 1 {
        return Err(Reason::InvalidBlockInfoRecord(1));
    }
    let (b, d) = c
        .read_vbr(s, 6)
        .map_err(|_| Reason::InvalidBlockInfoRecord(1))?;
    if 0x1_0000_0000 <= b {
        return Err(Reason::InvalidBlockInfoRecord(1));
    }
    Ok((Some(BlockNumber(b)), d))
}

// BLOCKNAME: letters, for the block that is chosen.
fn read_block_name(
    c: Cursor,
    s: &[u8],
    chosen: Option<BlockNumber>,
    count: u64,
) -> Result<(Option<BlockNumber>, Cursor), Reason>
    ensures { Gives c s.now (block_name (of_chosen chosen) count) (of_named result) }
{
    chosen.ok_or(Reason::MissingSetBid)?;
    let d = read_letters(c, s, count)?;
    Ok((chosen, d))
}

// SETRECORDNAME: a record's code, then letters.
fn read_record_name(
    c: Cursor,
    s: &[u8],
    chosen: Option<BlockNumber>,
    count: u64,
) -> Result<(Option<BlockNumber>, Cursor), Reason>
    ensures { Gives c s.now (record_name every (of_chosen chosen) count) (of_named result) }
{
    chosen.ok_or(Reason::MissingSetBid)?;
    if count == 0 {
        return Err(Reason::InvalidBlockInfoRecord(3));
    }
    let (_, d) = c
        .read_vbr(s, 6)
        .map_err(|_| Reason::InvalidBlockInfoRecord(3))?;
    let e = read_letters(d, s, count - 1)?;
    Ok((chosen, e))
}

// A record of BLOCKINFO: code and count, vbr6, then what the code says.
fn read_info_record(
    c: Cursor,
    s: &[u8],
    chosen: Option<BlockNumber>,
) -> Result<(Option<BlockNumber>, Cursor), Reason>
    ensures { Gives c s.now (info_record every (of_chosen chosen)) (of_named result) }
{
    let (code, d) = c.read_vbr(s, 6)?;
    let (n, e) = d.read_vbr(s, 6)?;
    match code {
        1 => read_set_bid(e, s, n),
        2 => read_block_name(e, s, chosen, n),
        3 => read_record_name(e, s, chosen, n),
        _ => Err(Reason::InvalidBlockInfoRecord(code)),
    }
}

// A definition in BLOCKINFO, for the block that is chosen.
fn read_info_definition(
    c: Cursor,
    s: &[u8],
    chosen: Option<BlockNumber>,
    kinds: &mut [u8],
    widths: &mut [u64],
    have: usize,
) -> Result<(InfoItem, Cursor), Reason>
    requires { (have ≤ max_shared) × (shared_slots ≤ length kinds.old) × (shared_slots ≤ length widths.old) }
    ensures kept { KeptBut (row_size * have) row_size kinds.old kinds.new widths.old widths.new }
    ensures does { InfoDoes c s.now (info_numbered every (of_chosen chosen) have 2) kinds.new widths.new have result }
{
    let block = chosen.ok_or(Reason::MissingSetBid)?;
    let (shape, d) = define_abbrev(c, s, kinds, widths, have)?;
    if MAX_SHARED <= have {
        return Err(Reason::NoAbbreviationRoom);
    }
    Ok((InfoItem::Adds(block, shape), d))
}

// An item of BLOCKINFO.
fn read_info_item(
    c: Cursor,
    s: &[u8],
    width: u64,
    chosen: Option<BlockNumber>,
    kinds: &mut [u8],
    widths: &mut [u64],
    have: usize,
) -> Result<(InfoItem, Cursor), Reason>
    requires { (have ≤ max_shared) × (shared_slots ≤ length kinds.old) × (shared_slots ≤ length widths.old) }
    ensures kept { KeptBut (row_size * have) row_size kinds.old kinds.new widths.old widths.new }
    ensures does { InfoDoes c s.now (info_item every width (of_chosen chosen) have) kinds.new widths.new have result }
{
    let (n, d) = read_number(c, s, width)?;
    match n {
        0 => {
            let e = d.align32(s)?;
            Ok((InfoItem::End, e))
        }
        1 => Err(Reason::NestedBlockInBlockInfo),
        2 => read_info_definition(d, s, chosen, kinds, widths, have),
        3 => {
            let (now, e) = read_info_record(d, s, chosen)?;
            Ok((InfoItem::Now(now), e))
        }
        _ => Err(Reason::NoSuchAbbrev(n, 0)),
    }
}

// The items of BLOCKINFO, into tables that have all shared rows.
fn read_info_items(
    mut c: Cursor,
    s: &[u8],
    width: u64,
    kinds: &mut [u8],
    widths: &mut [u64],
    shapes: &mut [u64],
    owners: &mut [u64],
    shared: usize,
) -> Result<usize, Refused>
    requires slots { (shared ≤ max_shared) × (shared_slots ≤ length kinds.old) × (shared_slots ≤ length widths.old) }
    requires rows { (max_shared ≤ length shapes.old) × (max_shared ≤ length owners.old) }
    ensures kept { Kept shared local_rows (tables kinds.old widths.old shapes.old owners.old) (tables kinds.new widths.new shapes.new owners.new) }
    ensures is { let t = tables kinds.old widths.old shapes.old owners.old in InfoIs c s.now (info_all width shared) shared t (tables kinds.new widths.new shapes.new owners.new) result }
{
    let mut have = shared;
    let mut chosen = None;
    loop {
        let at = c.at;
        let (item, d) = read_info_item(c, s, width, chosen, kinds, widths, have).map_err(|e| e.at(
            at,
        ))?;
        match item {
            InfoItem::End => return Ok(have),
            InfoItem::Adds(block, shape) => {
                shapes[have] = shape;
                owners[have] = block.0;
                have += 1;
            }
            InfoItem::Now(now) => chosen = now,
        }
        c = d;
    }
}

// A BLOCKINFO's body from the cursor on: what it defines stands behind the shared abbreviations that there are, and it says how many they are then.
pub fn read_block_info_block(
    c: Cursor,
    s: &[u8],
    width: u64,
    kinds: &mut [u8],
    widths: &mut [u64],
    shapes: &mut [u64],
    owners: &mut [u64],
    shared: usize,
) -> Result<usize, Refused>
    ensures kept { Kept shared local_rows (tables kinds.old widths.old shapes.old owners.old) (tables kinds.new widths.new shapes.new owners.new) }
    ensures is { let t = tables kinds.old widths.old shapes.old owners.old in InfoIs c s.now (info_block width shared t) shared t (tables kinds.new widths.new shapes.new owners.new) result }
{
    if MAX_SHARED < shared {
        return Err(Reason::NoAbbreviationRoom.at(c.at));
    }
    if kinds.len() < SHARED_SLOTS || widths.len() < SHARED_SLOTS {
        return Err(Reason::NoAbbreviationRoom.at(c.at));
    }
    if shapes.len() < MAX_SHARED || owners.len() < MAX_SHARED {
        return Err(Reason::NoAbbreviationRoom.at(c.at));
    }
    read_info_items(c, s, width, kinds, widths, shapes, owners, shared)
}

// The shared rows that are for a block, in their order, of the first `shared`: their numbers go into `rows`. It says how many they are.
pub fn shared_rows(block: BlockNumber, owners: &[u64], shared: usize, rows: &mut [u8]) -> usize
    ensures many { result ≡ length (picked block.0 owners.now shared (length rows.old)) }
    ensures stored { rows.new ≡ picked block.0 owners.now shared (length rows.old) ++ drop result rows.old }
{
    let many = shared.min(MAX_SHARED).min(owners.len());
    let mut k = 0;
    for (j, owner) in owners[..many].iter().enumerate() {
        if rows.len() <= k {
            return k;
        }
        if BlockNumber(*owner) == block {
            rows[k] = j as u8;
            k += 1;
        }
    }
    k
}

// The row that a number stands for in a block: first the shared rows that are for the block, then its local ones, from the local row `base` on up to
// the local row `local`.
pub fn look_up(
    block: BlockNumber,
    number: AbbrevNumber,
    shared: &[u8],
    base: usize,
    local: usize,
) -> Result<usize, Reason>
    ensures { result ≡ of_row block.0 number.0 (row_at shared.now base local number.0) }
{
    let n = number.0;
    if n < 4 {
        return Err(Reason::NoSuchAbbrev(n, block.0));
    }
    let i = n - 4;
    let own = shared.len() as u64;
    if i < own {
        return Ok(shared[i as usize] as usize);
    }
    if MAX_LOCAL < local || local < base {
        return Err(Reason::NoSuchAbbrev(n, block.0));
    }
    if (local - base) as u64 <= i - own {
        return Err(Reason::NoSuchAbbrev(n, block.0));
    }
    Ok(LOCAL + base + (i - own) as usize)
}
