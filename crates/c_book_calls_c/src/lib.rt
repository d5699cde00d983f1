// The archive of the call that makes a book of a clause file: the function for C hands on to the one of `c_book_calls` that has its name.
#![tactic(auto)]

ghost use Rattle.std.specs.Prelude.{◌≡◌};
ghost use Rattle.calls.specs.Calls.{import_of};
ghost use Rattle.c_calls.specs.Packed.{packed_value};

// The import; the value is the length of the book.
#[unsafe(no_mangle)]
pub extern "C" fn nd_import(text: &[u8], out: &mut [u8]) -> u64
    ensures value { result ≡ packed_value (import_of text.now out.old).answer }
    ensures out_after { out.new ≡ (import_of text.now out.old).lent }
{
    c_book_calls::nd_import(text, out)
}
