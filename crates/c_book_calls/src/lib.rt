// The calls for C that make a book: the import of a clause file. Each answers one number, as in `c_calls`: the refusal, and the value.
#![tactic(auto)]

ghost use Rattle.std.specs.Prelude.{◌≡◌};
ghost use Rattle.calls.specs.Calls.{import_of};
ghost use Rattle.c_calls.specs.Packed.{packed_value};

// The import; the value is the length of the book.
#[unsafe(no_mangle)]
pub extern "C" fn nd_import(text: &[u8], out: &mut [u8]) -> u64
    ensures value { result ≡ packed_value (import_of text.now out.old).answer }
    ensures out_after { out.new ≡ (import_of text.now out.old).lent }
{
    c_calls::found(call_import::import(text, out))
}
