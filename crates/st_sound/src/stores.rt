// Each store that a run comes to is sound.
ghost use Rattle.st_sound.specs.KnownCollections.{ProgramsKnowCollections};
ghost use Rattle.st_sound.specs.SoundRun.{StoresAreSound};

/// At each small step of the flat machine's run of a compiled program the store is sound, and so are
/// each loop that stands, the visit that it comes to next, what a message does at once, and each
/// body and closure, which are of the class that their code is written in. Each program that the
/// units of a file are has what this asks for, where no class of the file stands under
/// OrderedCollection, Set or Dictionary.
pub fn each_store_is_sound()
    ensures runs { StoresAreSound }
    ensures programs { ProgramsKnowCollections }
{}
