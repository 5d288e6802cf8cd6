// Text that is written from its end to its front, into octets that are long enough for it.
ghost use Rattle.std.specs.Prelude.{◌≡◌, ◌+◌, ◌/◌, ◌%◌, ◌<◌, ◌≤◌, ◌∷◌, ◌++◌, length, drop};
ghost use Rattle.std.specs.Fmt.{decimal};
ghost use Rattle.router_log.specs.Numbers.{fixed_decimal, octet_entry};

// The digits of 00 to 99, two octets each, so that one division gives two digits.
static PAIRS: [u8; 200] =
    *b"00010203040506070809101112131415161718192021222324252627282930313233343536373839404142434445464748495051525354555657585960616263646566676869707172737475767778798081828384858687888990919293949596979899";

// The digits of 0 to 255, four octets each: how many digits there are, then three octets that end
// with them.
static OCTETS: [u8; 1024] = *b"\
    1..01..11..21..31..41..51..61..71..81..92.102.112.122.132.142.15\
    2.162.172.182.192.202.212.222.232.242.252.262.272.282.292.302.31\
    2.322.332.342.352.362.372.382.392.402.412.422.432.442.452.462.47\
    2.482.492.502.512.522.532.542.552.562.572.582.592.602.612.622.63\
    2.642.652.662.672.682.692.702.712.722.732.742.752.762.772.782.79\
    2.802.812.822.832.842.852.862.872.882.892.902.912.922.932.942.95\
    2.962.972.982.99310031013102310331043105310631073108310931103111\
    3112311331143115311631173118311931203121312231233124312531263127\
    3128312931303131313231333134313531363137313831393140314131423143\
    3144314531463147314831493150315131523153315431553156315731583159\
    3160316131623163316431653166316731683169317031713172317331743175\
    3176317731783179318031813182318331843185318631873188318931903191\
    3192319331943195319631973198319932003201320232033204320532063207\
    3208320932103211321232133214321532163217321832193220322132223223\
    3224322532263227322832293230323132323233323432353236323732383239\
    3240324132423243324432453246324732483249325032513252325332543255";

/// The most digits of a number of 64 bits.
pub const MOST_DIGITS: usize = 20;

/// Writes a number so that its last digit stands before the place `end`. Returns the place of its
/// first digit. Inlined, because most callers' numbers have fewer bits and need fewer tests.
#[inline(always)]
#[tactic(auto, using(crate::proofs::DigitLemmas::decimal_eight, crate::proofs::DigitLemmas::length_eight, std::proofs::lemmas::Grind::common_steps))]
pub fn write_digits(number: u64, text: &mut [u8], end: usize) -> usize
    requires { (length (decimal number) ≤ end) × (end ≤ length text.old) }
    ensures place { result + length (decimal number) ≡ end }
    ensures written { drop result text.new ≡ decimal number ++ drop end text.old }
{
    let mut left = number;
    let mut from = end;
    while left >= 100_000_000 {
        from -= 8;
        write_eight((left % 100_000_000) as u32, text, from);
        left /= 100_000_000;
    }
    write_few(left as u32, text, from)
}

// Writes a number of at most eight digits. Inlined, as `write_digits` is.
#[inline(always)]
#[tactic(auto, using(crate::proofs::DigitLemmas::decimal_four, crate::proofs::DigitLemmas::length_four, std::proofs::lemmas::Grind::common_steps))]
fn write_few(number: u32, text: &mut [u8], end: usize) -> usize
    requires { (number < 100000000) × ((length (decimal number) ≤ end) × (end ≤ length text.old)) }
    ensures place { result + length (decimal number) ≡ end }
    ensures written { drop result text.new ≡ decimal number ++ drop end text.old }
{
    if number < 10_000 {
        return write_short(number, text, end);
    }
    write_four(number % 10_000, text, end - 4);
    write_short(number / 10_000, text, end - 4)
}

// Writes a number of at most four digits.
#[tactic(auto, using(crate::proofs::DigitLemmas::decimal_more, crate::proofs::DigitLemmas::length_more, std::proofs::lemmas::Grind::common_steps))]
fn write_short(number: u32, text: &mut [u8], end: usize) -> usize
    requires { (number < 10000) × ((length (decimal number) ≤ end) × (end ≤ length text.old)) }
    ensures place { result + length (decimal number) ≡ end }
    ensures written { drop result text.new ≡ decimal number ++ drop end text.old }
{
    if number < 100 {
        return write_first(number, text, end);
    }
    write_pair(number % 100, text, end - 2);
    write_first(number / 100, text, end - 2)
}

// Writes the one or two digits of a number below 100.
#[tactic(auto, using(crate::proofs::DigitLemmas::decimal_two, std::proofs::lemmas::Fmt::decimal_digit, std::proofs::lemmas::Grind::common_steps))]
fn write_first(number: u32, text: &mut [u8], end: usize) -> usize
    requires { (number < 100) × ((length (decimal number) ≤ end) × (end ≤ length text.old)) }
    ensures place { result + length (decimal number) ≡ end }
    ensures written { drop result text.new ≡ decimal number ++ drop end text.old }
{
    if number < 10 {
        text[end - 1] = b'0' + number as u8;
        return end - 1;
    }
    write_pair(number, text, end - 2);
    end - 2
}

/// Writes eight decimal digits at a place, with leading zeros. The number is halved first, so that
/// no pair of digits waits for all the pairs behind it.
#[tactic(auto, using(crate::proofs::DigitLemmas::eight_fours, std::proofs::lemmas::Grind::common_steps))]
pub(crate) fn write_eight(number: u32, text: &mut [u8], at: usize)
    requires { (number < 100000000) × (at + 8 ≤ length text.old) }
    ensures { drop at text.new ≡ fixed_decimal 8 number ++ drop (at + 8) text.old }
{
    write_four(number % 10_000, text, at + 4);
    write_four(number / 10_000, text, at);
}

// Writes four decimal digits at a place, with leading zeros.
#[tactic(auto, using(crate::proofs::DigitLemmas::four_pairs, std::proofs::lemmas::Grind::common_steps))]
fn write_four(number: u32, text: &mut [u8], at: usize)
    requires { (number < 10000) × (at + 4 ≤ length text.old) }
    ensures { drop at text.new ≡ fixed_decimal 4 number ++ drop (at + 4) text.old }
{
    write_pair(number % 100, text, at + 2);
    write_pair(number / 100, text, at);
}

// Both octets of a pair are read before one is written, so that one move copies them.
#[tactic(auto, using(crate::proofs::DigitLemmas::pair_at, std::proofs::lemmas::Grind::common_steps))]
fn write_pair(pair: u32, text: &mut [u8], at: usize)
    requires { (pair < 100) × (at + 2 ≤ length text.old) }
    ensures { drop at text.new ≡ (48 + pair / 10) ∷ (48 + pair % 10) ∷ drop (at + 2) text.old }
{
    let place = pair as usize * 2;
    let tens = PAIRS[place];
    let ones = PAIRS[place + 1];
    text[at + 1] = ones;
    text[at] = tens;
}

/// Writes the decimal digits of an octet before the place `end`, by one look into a table. Returns
/// the place of the first digit.
pub(crate) fn write_octet_digits(octet: u8, text: &mut [u8], end: usize) -> usize
    requires { (4 ≤ end) × (end ≤ length text.old) }
    ensures place { result + length (decimal octet) ≡ end }
    ensures short { end ≤ result + 3 }
    ensures written { drop result text.new ≡ decimal octet ++ drop end text.old }
{
    write_entry(octet, text, end - 4);
    end - digit_count(octet)
}

// All four octets of an entry are read before one is written, so that one move copies them.
fn write_entry(octet: u8, text: &mut [u8], at: usize)
    requires { at + 4 ≤ length text.old }
    ensures { drop at text.new ≡ octet_entry octet ++ drop (at + 4) text.old }
{
    let place = octet as usize * 4;
    let count = OCTETS[place];
    let first = OCTETS[place + 1];
    let second = OCTETS[place + 2];
    let third = OCTETS[place + 3];
    text[at + 3] = third;
    text[at + 2] = second;
    text[at + 1] = first;
    text[at] = count;
}

fn digit_count(octet: u8) -> usize
    ensures count { result ≡ length (decimal octet) }
    ensures short { result ≤ 3 }
{
    OCTETS[octet as usize * 4] as usize - b'0' as usize
}

/// Writes octets before the place `end`. Returns the place of the first one.
pub fn write_octets(octets: &[u8], text: &mut [u8], end: usize) -> usize
    requires { (length octets.now ≤ end) × (end ≤ length text.old) }
    ensures place { result + length octets.now ≡ end }
    ensures written { drop result text.new ≡ octets.now ++ drop end text.old }
{
    let from = end - octets.len();
    text[from..end].copy_from_slice(octets);
    from
}

/// Writes one octet before the place `end`. Returns its place.
pub fn write_octet(octet: u8, text: &mut [u8], end: usize) -> usize
    requires { (0 < end) × (end ≤ length text.old) }
    ensures place { result + 1 ≡ end }
    ensures written { drop result text.new ≡ octet ∷ drop end text.old }
{
    text[end - 1] = octet;
    end - 1
}

/// Writes an octet and, behind it, the decimal digits of a number before the place `end`. Returns
/// the place of the octet. Inlined, as `write_digits` is.
#[inline(always)]
pub fn write_behind(octet: u8, number: u64, text: &mut [u8], end: usize) -> usize
    requires { (length (decimal number) < end) × (end ≤ length text.old) }
    ensures place { result + 1 + length (decimal number) ≡ end }
    ensures written { drop result text.new ≡ octet ∷ (decimal number ++ drop end text.old) }
{
    let from = write_digits(number, text, end);
    write_octet(octet, text, from)
}
