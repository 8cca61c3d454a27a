#![tactic(auto)]
// What the format settles by name: satellites, areas, the sixteen bands, sizes, segments, and the file's own name.
ghost use Rattle.std.specs.Prelude.{◌≡◌, ◌+◌, ◌-◌, ◌%◌, ◌≤◌};
ghost use Rattle.std.specs.List.{list_all};
ghost use Rattle.calendar.specs.Dates.{paper_day};
ghost use Rattle.format.specs.Texts.{digit, pair, decimal};
ghost use Rattle.format.specs.Ranges.{satellite_of, series, good_area, good_size, good_total, good_number, good_first};
ghost use Rattle.format.specs.Bands.{good_band, band_of};
ghost use Rattle.format.specs.Names.{date_of, day_or_0, name_for, good_name};

// How far a byte stands above the digit 0.
fn above_zero(b: u8) -> u32
    ensures { result ≡ b - 48 }
{
    u32::from(b.saturating_sub(b'0'))
}

// The number of two digits.
fn pair_of(a: u8, b: u8) -> u32
    ensures { (result ≡ pair a b) × (result ≤ 2277) }
{
    above_zero(a) * 10 + above_zero(b)
}

// 8 for Himawari-8, 9 for Himawari-9, 0 for any other text. No Option: `satellite_of` of specs/ answers 0 there, as C and the listing do.
#[tactic(auto, unfolding(crate::specs::Ranges::satellite_of))]
pub fn satellite_of(text: [u8; 16]) -> u8
    ensures { result ≡ satellite_of text }
{
    if wire::same(&text, b"Himawari-8\0\0\0\0\0\0") {
        8
    } else if wire::same(&text, b"Himawari-9\0\0\0\0\0\0") {
        9
    } else {
        0
    }
}

// Whether an area is one of the series x y 01 to x y n.
fn in_series(area: [u8; 4], x: u8, y: u8, n: u32) -> bool
    ensures { result ≡ series area x y n }
{
    let digits = area[2].is_ascii_digit() && area[3].is_ascii_digit();
    area[0] == x && area[1] == y && digits && (1..=n).contains(&pair_of(area[2], area[3]))
}

#[tactic(auto, unfolding(crate::specs::Ranges::good_area))]
pub fn good_area(area: [u8; 4]) -> bool
    ensures { result ≡ good_area area }
{
    wire::same(&area, b"FLDK")
        || in_series(area, b'J', b'P', 4)
        || in_series(area, b'R', b'3', 4)
        || in_series(area, b'R', b'4', 20)
        || in_series(area, b'R', b'5', 20)
}

// Columns and lines alike.
pub fn good_size(n: u16) -> bool
    ensures { result ≡ good_size n }
{
    (1..=22000).contains(&n)
}

pub fn good_total(total: u8) -> bool
    ensures { result ≡ good_total total }
{
    (1..=99).contains(&total)
}

pub fn good_number(number: u8, total: u8) -> bool
    ensures { result ≡ good_number number total }
{
    (1..=total).contains(&number)
}

// Whether a segment of so many lines, from its first line on, lies on the disk.
pub fn good_first(first: u16, lines: u16) -> bool
    ensures { result ≡ good_first first lines }
{
    1 <= first && u32::from(first) + u32::from(lines) - 1 <= 22000
}

// A band's valid bits and its resolution in tenths of a kilometre.
#[derive(Clone, Copy)]
pub struct Band {
    pub bits: u16,
    pub resolution: u8,
}

// Table 1, from band 1 on, a row to a line.
#[rattlefmt::skip]
static BANDS: [Band; 16] = [
    Band { bits: 11, resolution: 10 },
    Band { bits: 11, resolution: 10 },
    Band { bits: 11, resolution: 5 },
    Band { bits: 11, resolution: 10 },
    Band { bits: 11, resolution: 20 },
    Band { bits: 11, resolution: 20 },
    Band { bits: 14, resolution: 20 },
    Band { bits: 11, resolution: 20 },
    Band { bits: 11, resolution: 20 },
    Band { bits: 12, resolution: 20 },
    Band { bits: 12, resolution: 20 },
    Band { bits: 12, resolution: 20 },
    Band { bits: 12, resolution: 20 },
    Band { bits: 12, resolution: 20 },
    Band { bits: 12, resolution: 20 },
    Band { bits: 11, resolution: 20 },
];

pub fn good_band(band: u16) -> bool
    ensures { result ≡ good_band band }
{
    (1..=16).contains(&band)
}

// The row of a band; zeros for what is no band, as `band_of` of specs/ has it.
#[tactic(auto, unfolding(crate::specs::Bands::band_of))]
pub fn band_of(band: u16) -> Band
    ensures { result ≡ band_of band }
{
    if good_band(band) {
        BANDS[usize::from(band - 1)]
    } else {
        Band {
            bits: 0,
            resolution: 0,
        }
    }
}

fn are_digits(text: [u8; 8]) -> bool
    ensures { result ≡ list_all digit text }
{
    text.iter().all(|byte| byte.is_ascii_digit())
}

// The day that a name tells.
#[tactic(auto, using(crate::proofs::Digits::eight_digits), unfolding(crate::specs::Names::date_of, calendar::specs::Dates::paper_day))]
pub fn date_of(name: [u8; 128]) -> Option<u32>
    ensures { paper_day result ≡ date_of name }
{
    if !are_digits(wire::bytes_at(&name, 7)) {
        return None;
    }
    let year = pair_of(name[7], name[8]) * 100 + pair_of(name[9], name[10]);
    let month = pair_of(name[11], name[12]);
    let day = pair_of(name[13], name[14]);
    calendar::day_of(year, month, day)
}

// The day, and 0 where there is none.
#[tactic(auto, using(crate::proofs::Days::days))]
pub fn day_or_0(d: Option<u32>) -> u32
    ensures { result ≡ day_or_0 (paper_day d) }
{
    d.unwrap_or(0)
}

// The last digit of a number.
pub fn glyph(x: u32) -> u8
    ensures { result ≡ 48 + x % 10 }
{
    (48 + x % 10) as u8
}

// The last W digits of a number, the highest first.
#[tactic(auto, using(crate::proofs::Digits::digits))]
pub fn decimal<const W: usize>(x: u32) -> [u8; W]
    ensures { result ≡ decimal W x }
{
    let mut digits = [0; W];
    let mut rest = x;
    for i in (0..W).rev() {
        digits[i] = glyph(rest);
        rest /= 10;
    }
    digits
}

// The name that the header's values spell, and zero bytes. The values come one by one, from three blocks: a struct of them would be filled at one
// place, the check of a file's name.
pub fn name_for(
    satellite: u8,
    date: [u8; 8],
    timeline: u16,
    band: u16,
    area: [u8; 4],
    number: u8,
    total: u8,
) -> [u8; 128]
    ensures { result ≡ name_for satellite date timeline band area number total }
{
    let mut name = [0; 128];
    wire::put_bytes(&mut name, 0, *b"HS_H");
    wire::put_bytes(&mut name, 4, decimal::<2>(u32::from(satellite)));
    wire::put_byte(&mut name, 6, b'_');
    wire::put_bytes(&mut name, 7, date);
    wire::put_byte(&mut name, 15, b'_');
    wire::put_bytes(&mut name, 16, decimal::<4>(u32::from(timeline)));
    wire::put_bytes(&mut name, 20, *b"_B");
    wire::put_bytes(&mut name, 22, decimal::<2>(u32::from(band)));
    wire::put_byte(&mut name, 24, b'_');
    wire::put_bytes(&mut name, 25, area);
    wire::put_bytes(&mut name, 29, *b"_R");
    wire::put_bytes(
        &mut name,
        31,
        decimal::<2>(u32::from(band_of(band).resolution)),
    );
    wire::put_bytes(&mut name, 33, *b"_S");
    wire::put_bytes(&mut name, 35, decimal::<2>(u32::from(number)));
    wire::put_bytes(&mut name, 37, decimal::<2>(u32::from(total)));
    wire::put_bytes(&mut name, 39, *b".DAT");
    name
}

// Whether a name spells the header's values, with a real date.
#[tactic(auto, using(crate::proofs::Days::days), unfolding(crate::specs::Names::good_name))]
pub fn good_name(
    name: [u8; 128],
    satellite: u8,
    timeline: u16,
    band: u16,
    area: [u8; 4],
    number: u8,
    total: u8,
) -> bool
    ensures { result ≡ good_name name satellite timeline band area number total }
{
    let date = wire::bytes_at(&name, 7);
    let spelt = name_for(satellite, date, timeline, band, area, number, total);
    wire::same(&name, &spelt) && date_of(name).is_some()
}
