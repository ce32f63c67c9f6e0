//! Folders that are woven: the line that is printed, and the files that are put.

use crate::cases::{each_ends, ends};
use crate::files::small;
use crate::outside::WEAVE;
use std::test::Fail;

/// The small folder, and files besides that change nothing: those that are left unread, those outside of
/// `game/` and of the folders of mods, and the classes of a mod for the other side.
const UNREAD: &str = r#"=> woven 1 classes, 1 edited, 1 mixins, 0 hooks
app/Main.class is class:app/Main main call:app/Main.f def:f out push:7 println

a.txt = ?
app/B.class = ?
game/META-INF/B.class = ?
game/META-INF/services/b.json = ?
game/app/module-info.class = ?
game/b.txt = ?
game/more.json = ?
mods/B.class = ?
mods/alpha/META-INF/fabric.mod.json = ?
mods/alpha/more.json = ?
mods/beta.json = ?
module-info.class = ?
=> woven 1 classes, 1 edited, 1 mixins, 0 hooks
app/Main.class is class:app/Main main call:app/Main.f def:f out push:7 println

mods/beta/B.class = ?
mods/beta/beta.json = {"package":"beta","mixins":["Gone"]}
mods/beta/fabric.mod.json = {"schemaVersion":1,"id":"game","version":"1.0.0","environment":"server","mixins":["beta.json"]}
=> woven 1 classes, 1 edited, 1 mixins, 0 hooks
app/Main.class is class:app/Main main call:app/Main.f def:f out push:7 println"#;

/// Folders with more and with fewer classes and mods. All classes that no configuration lists are put, by
/// the bytes of their paths, those without a mixin as they were read.
const FOLDERS: &str = r#"# two mods with a mixin each
game/app/B.class = class:app/B version:50.3 seen:java/lang/Deprecated kept:SourceFile def:g
game/app/Main-x.class = class:app/Main-x
mods/beta/beta.json = {"package":"beta","client":["on.BMixin"]}
mods/beta/beta/on/BMixin.class = class:beta/on/BMixin on:Lapp/B; over:g call:beta/on/BMixin.h
mods/beta/fabric.mod.json = {"schemaVersion":1,"id":"beta","version":"1.0.0","mixins":["beta.json"]}
mods/beta/zeta/Z.class = class:zeta/Z def:f call:app/B.g
=> woven 4 classes, 2 edited, 2 mixins, 0 hooks
app/B.class is class:app/B seen:java/lang/Deprecated kept:SourceFile def:g call:app/B.h
app/Main-x.class < game/app/Main-x.class
app/Main.class is class:app/Main main call:app/Main.f def:f out push:7 println
zeta/Z.class < mods/beta/zeta/Z.class

# a mixin on a class of a mod, and the classes of the mod before those of the game
mods/alpha/alpha/mixin/MainMixin.class = class:alpha/mixin/MainMixin on:Laa/A; over:f out push:7 println
mods/alpha/aa/A.class = class:aa/A def:f
=> woven 2 classes, 1 edited, 1 mixins, 0 hooks
aa/A.class is class:aa/A def:f out push:7 println
app/Main.class < game/app/Main.class

# no class
- game/app/Main.class
- mods/alpha/alpha/mixin/MainMixin.class
mods/alpha/alpha.mixins.json = {"package":"alpha.mixin"}
=> woven 0 classes, 0 edited, 0 mixins, 0 hooks

# no mod
- mods/alpha/alpha.mixins.json
- mods/alpha/alpha/mixin/MainMixin.class
- mods/alpha/fabric.mod.json
=> woven 1 classes, 0 edited, 0 mixins, 0 hooks
app/Main.class < game/app/Main.class

# a class that calls methods of classes that aren't there
game/app/Main.class = class:app/Main def:f call:app/Gone.g call:java/lang/Thread.yield
mods/alpha/alpha/mixin/MainMixin.class = class:alpha/mixin/MainMixin on:Lapp/Main; over:f call:app/Gone.h
=> woven 1 classes, 1 edited, 1 mixins, 0 hooks
app/Main.class is class:app/Main def:f call:app/Gone.h

# a mixin that no configuration lists is a class like others
mods/alpha/alpha.mixins.json = {"package":"alpha.mixin"}
=> woven 2 classes, 0 edited, 0 mixins, 0 hooks
alpha/mixin/MainMixin.class < mods/alpha/alpha/mixin/MainMixin.class
app/Main.class < game/app/Main.class

# a priority in front of the target, and behind it; a mixin that names itself
game/app/B.class = class:app/B def:f
mods/alpha/alpha.mixins.json = {"package":"alpha","mixins":["mixin.MainMixin"],"client":["mixin/BMixin","mixin.BMixin"]}
mods/alpha/alpha/mixin/BMixin.class = class:alpha/mixin/BMixin on:Lapp/B;,-5 names:alpha/mixin/BMixin over:f push:1 push:2
mods/alpha/alpha/mixin/MainMixin.class = class:alpha/mixin/MainMixin on:2147483647,Lapp/Main; over:f out push:8 println
=> woven 2 classes, 2 edited, 2 mixins, 0 hooks
app/B.class is class:app/B def:f push:1 push:2
app/Main.class is class:app/Main main call:app/Main.f def:f out push:8 println

# other texts of the JSON files
game/game.json = {"main":"app/Main","builtin":{"java":"8","fabricloader":"0.16.0"},"version":"2.0-beta","id":"other"}
mods/alpha/alpha.mixins.json = {"required":true,"package":"alpha/mixin","compatibilityLevel":"JAVA_8","mixins":["MainMixin"],"refmap":"gone.json","minVersion":"0.8"}
mods/alpha/fabric.mod.json = {"schemaVersion":1,"id":"alpha","version":"any","name":"Alpha","mixins":[{"config":"alpha.mixins.json","environment":"client"}],"jars":[],"depends":{"java":">=8","other":"~2.0-"},"breaks":{"gone":"*"}}
=> woven 1 classes, 1 edited, 1 mixins, 0 hooks
app/Main.class is class:app/Main main call:app/Main.f def:f out push:7 println

# annotations and attributes of other packages: those of the target stay, but on the method that is overwritten
game/app/Main.class = class:app/Main seen:java/lang/Deprecated note:org/spongepowered/asmx/A kept:SourceFile main seen:org/spongepowered/asm code-kept:LineNumberTable def:f note:java/lang/Deprecated code-kept:LineNumberTable
mods/alpha/alpha/mixin/MainMixin.class = class:alpha/mixin/MainMixin seen:java/lang/Deprecated on:Lapp/Main; kept:SourceFile kept:SourceFile over:f note:org/spongepowered/asmx/A code-kept:LineNumberTable out push:7 println
=> woven 1 classes, 1 edited, 1 mixins, 0 hooks
app/Main.class is class:app/Main seen:java/lang/Deprecated note:org/spongepowered/asmx/A kept:SourceFile main seen:org/spongepowered/asm code-kept:LineNumberTable def:f out push:7 println"#;

/// The greater of two versions is written, and the minor one of the target, or 0 where the mixin's is greater.
const VERSIONS: &str = r#"game/app/Main.class = class:app/Main version:52.7 def:f
mods/alpha/alpha/mixin/MainMixin.class = class:alpha/mixin/MainMixin version:50.0 on:Lapp/Main; over:f
=> woven 1 classes, 1 edited, 1 mixins, 0 hooks
app/Main.class is class:app/Main version:52.7 def:f

game/app/Main.class = class:app/Main version:50.3 def:f
mods/alpha/alpha/mixin/MainMixin.class = class:alpha/mixin/MainMixin version:50.9 on:Lapp/Main; over:f
=> woven 1 classes, 1 edited, 1 mixins, 0 hooks
app/Main.class is class:app/Main version:50.3 def:f

game/app/Main.class = class:app/Main version:51.65535 def:f
mods/alpha/alpha/mixin/MainMixin.class = class:alpha/mixin/MainMixin version:52.1 on:Lapp/Main; over:f
=> woven 1 classes, 1 edited, 1 mixins, 0 hooks
app/Main.class is class:app/Main def:f

game/app/Main.class = class:app/Main version:51.65535 def:f
mods/alpha/alpha/mixin/MainMixin.class = class:alpha/mixin/MainMixin version:50.1 on:Lapp/Main; over:f
=> woven 1 classes, 1 edited, 1 mixins, 0 hooks
app/Main.class is class:app/Main version:51.65535 def:f"#;

/// A configuration with a list for each side, and one that a mod names for the server alone.
const SIDES: &str = r#"game/app/B.class = class:app/B def:f
game/app/C.class = class:app/C def:f
mods/alpha/alpha.mixins.json = {"package":"alpha.mixin","client":["MainMixin"],"server":["BMixin"]}
mods/alpha/alpha/mixin/BMixin.class = class:alpha/mixin/BMixin on:Lapp/B; over:f push:1
mods/alpha/alpha/mixin/CMixin.class = class:alpha/mixin/CMixin on:Lapp/C; over:f push:2
mods/alpha/fabric.mod.json = {"schemaVersion":1,"id":"alpha","version":"1","mixins":["alpha.mixins.json",{"config":"server.json","environment":"server"}]}
mods/alpha/server.json = {"package":"alpha.mixin","mixins":["CMixin"]}
"#;

const ON_THE_CLIENT: &str = "woven 3 classes, 1 edited, 1 mixins, 0 hooks
app/B.class < game/app/B.class
app/C.class < game/app/C.class
app/Main.class is class:app/Main main call:app/Main.f def:f out push:7 println";

const ON_THE_SERVER: &str = "woven 3 classes, 2 edited, 2 mixins, 0 hooks
app/B.class is class:app/B def:f push:1
app/C.class is class:app/C def:f push:2
app/Main.class < game/app/Main.class";

#[test]
fn folders_are_woven(rt: HostRuntime) -> Result<(), Fail> {
    each_ends(&rt, WEAVE, UNREAD)?;
    each_ends(&rt, WEAVE, FOLDERS)?;
    each_ends(&rt, WEAVE, VERSIONS)
}

#[test]
fn each_side_has_its_mixins(rt: HostRuntime) -> Result<(), Fail> {
    let alloc = rt.alloc();
    for (side, end) in [
        ("", ON_THE_CLIENT),
        (" --side client", ON_THE_CLIENT),
        (" --side server", ON_THE_SERVER),
    ] {
        let call = format!(in alloc; "{WEAVE}{side}")?;
        ends(&rt, call.as_str(), &small(alloc, SIDES)?, end)?;
    }
    Ok(())
}
