// What lies in a host's answer buffers after a call.

ghost use Rattle.life.specs.Buffers.{BindBufferLaw, ResolveBufferLaw};

// No call writes past a buffer, and a refused one writes nothing. An accepted Resolve writes one OID for each entry, that entry's; an
// accepted Bind a type for each parameter and a column for each field. What lies behind the answers stays.
pub fn buffers_stand()
    ensures resolve { ResolveBufferLaw }
    ensures bind { BindBufferLaw }
{}
