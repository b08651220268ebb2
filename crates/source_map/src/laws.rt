// Laws on the definitions alone.
ghost use Rattle.source_map.specs.Laws.{DecodesBack};
ghost use Rattle.source_map.specs.Examples.{Numbers, Texts, Segments, Faults};

/// The mappings text of segments whose lines don't decrease and whose numbers have 32 bits stands for these segments.
pub fn decodes_back()
    ensures { DecodesBack }
{}

/// What the definitions give on small cases.
pub fn examples()
    ensures numbers { Numbers }
    ensures texts { Texts }
    ensures segments { Segments }
    ensures faults { Faults }
{}
