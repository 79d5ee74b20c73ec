// The checks of a request's bytes (document 01, A request): the fields of one that has none of its reasons for 2.
#![tactic(auto)]

ghost use Rattle.std.specs.Prelude.{◌≡◌, ◌≤◌, true, false, length, MatchOption};
ghost use Rattle.request_checks.specs.Checks.{fields_good, well_formed};
ghost use Rattle.request_checks.specs.Inner.{AreFieldsOf};

use bank::Register;

// What a measurement asks for, and the event that is to be logged.
#[derive(Clone, Copy)]
pub struct Fields<'a> {
    pub register: Register,
    pub kind: u32,
    pub event: &'a [u8],
}

fn fields_good(flags: u64, n: usize, request: &[u8]) -> bool
    requires { 18 ≤ length request.now }
    ensures { result ≡ fields_good flags n request.now }
{
    let size = wire::get_le(request, 0, 4);
    let head = wire::get_le(request, 4, 4);
    let register = wire::get_le(request, 10, 4);
    (1 <= n)
        & ((n <= 65536)
            & ((flags / 2 % 8 == 0)
                & ((flags / 32 == 0)
                    & ((head == 14)
                        & ((18 <= size)
                            & ((size <= request.len() as u64)
                                & ((size <= 4114) & (register <= 23))))))))
}

// The fields of a request that lends n bytes of data, if it is well formed.
pub fn fields_of(flags: u64, n: usize, request: &[u8]) -> Option<Fields<'_>>
    ensures { MatchOption result (well_formed flags n request.now ≡ false) (λ f. (well_formed flags n request.now ≡ true) × AreFieldsOf f request.now) }
{
    if request.len() < 18 || !fields_good(flags, n, request) {
        return None;
    }
    let size = wire::get_le(request, 0, 4) as usize;
    let register = Register::new(wire::get_le(request, 10, 4))?;
    let kind = wire::get_le(request, 14, 4) as u32;
    let event = &request[18..size];
    Some(Fields {
        register,
        kind,
        event,
    })
}
