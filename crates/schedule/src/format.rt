// The format of a schedule: the numbers of its header, and its calls, each in 24 bytes. Every function takes any bytes.
ghost use Rattle.std.specs.Prelude.{◌≡◌, ◌+◌, ◌*◌, ◌<◌, ◌≤◌, length, drop, MatchOption};
ghost use Rattle.std.specs.List.{list_any};
ghost use Rattle.std.specs.Simd.{first_chunks};
ghost use Rattle.schedule.specs.rules.Format.{little, settings_in};
ghost use Rattle.schedule.specs.laws.FormatLaws.{CallRead, wrong, header_in};

use lock::{Call, Settings};

// "little-endian": the number that N bytes from `at` on hold. A loop over places: of a `fold` over the bytes from behind, which was tried, the check leaves open that no turn overflows (`callable`)
// and what comes out.
fn number_at<const N: usize>(bytes: &[u8], at: usize) -> u64
    requires few { N ≤ 8 }
    requires inside { at + N ≤ length bytes.now }
    ensures { result ≡ little N bytes.now at }
{
    let mut number = 0;
    for k in (0..N).rev() {
        number = 256 * number + u64::from(bytes[at + k]);
    }
    number
}

// "Header of 16 bytes: u16 H, u16 m, u32 T, u16 clients, u16 count of calls, u32 offset of the first."; 2.2, "u32 P at byte 16".
#[derive(Clone, Copy)]
pub struct Header {
    pub settings: Settings,
    pub clients: usize,
    pub count: usize,
    pub offset: usize,
}

// The settings of a file that is long enough to have a header.
pub fn settings_in(bytes: &[u8]) -> Settings
    requires { 20 ≤ length bytes.now }
    ensures { result ≡ settings_in bytes.now }
{
    Settings {
        levels: number_at::<2>(bytes, 0),
        distance: number_at::<2>(bytes, 2),
        wait: number_at::<4>(bytes, 4),
        patience: number_at::<4>(bytes, 16),
    }
}

impl Header {
    // The header of a file that is long enough to have one.
    pub fn read(bytes: &[u8]) -> Option<Header>
        ensures { MatchOption result (length bytes.now < 20) (λ header. (20 ≤ length bytes.now) × (header ≡ header_in bytes.now)) }
    {
        if bytes.len() < 20 {
            return None;
        }
        Some(Header {
            settings: settings_in(bytes),
            clients: number_at::<2>(bytes, 8) as usize,
            count: number_at::<2>(bytes, 10) as usize,
            offset: number_at::<4>(bytes, 12) as usize,
        })
    }

    // The calls, if all of their bytes are inside: "an offset plus 24 × calls over the file's length" is refused.
    pub fn calls(self, bytes: &[u8]) -> Option<&[[u8; 24]]>
        ensures { MatchOption result (length bytes.now < self.offset + 24 * self.count) (λ calls. (self.offset + 24 * self.count ≤ length bytes.now) × (calls.now ≡ first_chunks 24 self.count (drop self.offset bytes.now))) }
    {
        let (calls, _) = bytes.get(self.offset..)?.as_chunks::<24>();
        calls.get(..self.count)
    }
}

// "A call has 24 bytes: u8 kind (0 request, 1 step, 2 release, 3 cancel), u8 0, u16 client, u32 0, u64 a, u64 b."
pub fn call_in(bytes: &[u8; 24]) -> Call
    ensures { CallRead bytes.now result }
{
    Call {
        kind: u64::from(bytes[0]),
        client: number_at::<2>(bytes, 2),
        a: number_at::<8>(bytes, 8),
        b: number_at::<8>(bytes, 16),
    }
}

// "an unknown kind or a filled zero field"; "Request: a = l, b = r. Step: a = clock, b = 0. Else both 0." The kind is a number here: the file's byte may be any number,
// and an unknown kind is what is tested.
pub fn call_wrong(bytes: &[u8; 24]) -> bool
    ensures { result ≡ wrong bytes.now }
{
    let call = call_in(bytes);
    (3 < call.kind)
        | (bytes[1] != 0)
        | (number_at::<4>(bytes, 4) != 0)
        | ((call.kind != 0) & ((call.b != 0) | ((call.kind != 1) & (call.a != 0))))
}

// Whether one of the calls is wrong. All of them are looked at before anything is run.
pub fn any_wrong(calls: &[[u8; 24]]) -> bool
    ensures { result ≡ list_any wrong calls.now }
{
    calls.iter().any(|call| call_wrong(call))
}
