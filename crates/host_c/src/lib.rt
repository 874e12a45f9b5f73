// The exports for a host in C, over the library `host`.

#![tactic(auto)]

ghost use Rattle.std.specs.Prelude.{◌≡◌};
ghost use Rattle.table.specs.Check.{table_reply};
ghost use Rattle.host.specs.Answers.{check_number, JudgedNumber};

// uint64_t check(const uint8_t *table, size_t len)
#[unsafe(no_mangle)]
pub extern "C" fn check(table: &[u8]) -> u64
    ensures { result ≡ check_number (table_reply table.now) }
{
    host::check(table)
}

// uint64_t judge(const uint8_t *table, size_t table_len, const uint8_t *trace, size_t trace_len, uint32_t property)
#[unsafe(no_mangle)]
pub extern "C" fn judge(table: &[u8], trace: &[u8], property: u32) -> u64
    ensures { JudgedNumber table.now trace.now property result }
{
    host::judge(table, trace, property)
}
