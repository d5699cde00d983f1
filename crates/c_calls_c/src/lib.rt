// The archive of the order desk's two calls (include/nibdrumlin.h): each function for C hands on to the one of `c_calls` that has its name.
#![tactic(auto)]

ghost use Rattle.std.specs.Prelude.{◌≡◌};
ghost use Rattle.calls.specs.Calls.{check_of, lookup_of};
ghost use Rattle.c_calls.specs.Packed.{packed_done, packed_value};

// The book check.
#[unsafe(no_mangle)]
pub extern "C" fn nd_book_check(book: &[u8]) -> u64
    ensures { result ≡ packed_done (check_of book.now) }
{
    c_calls::nd_book_check(book)
}

// The code lookup.
#[unsafe(no_mangle)]
pub extern "C" fn nd_code_lookup(book: &[u8], code: &[u8]) -> u64
    ensures { result ≡ packed_value (lookup_of book.now code.now) }
{
    c_calls::nd_code_lookup(book, code)
}
